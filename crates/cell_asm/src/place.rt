//! Lines in their places, one after the other.

ghost use Rattle.std.specs.Prelude.{◌≡◌, ◌+◌, ◌-◌, ◌^◌, ◌<◌, ◌≤◌, false, List, [], OnOk};
ghost use Rattle.cell_asm.specs.Assembled.{placed_line};
ghost use Rattle.cell_asm.specs.Places.{taken, is_other as other_of, may_stand as may_stand_of, takes as takes_of, lays_nothing as lays_none, is_long as long_of};
ghost use Rattle.cell_asm.specs.Progress.{offset_of, rebound_of, twice_of, fault_after, laid_after, AreInside, HasRoom, Adds, Follows, Goes};
ghost use Rattle.cell_asm.specs.declared.statement.Laid.{Laid as LaidValue};

use crate::kind::{AsmKind, Stop};
use crate::known::Known;
use crate::label::{makes_label, put_binding, put_labels, put_mentions, put_spot};
use crate::reference::{Reference, put_references, put_upper};
use crate::section::{Bodies, add_choice, end};
use crate::statement::{Binding, Content, Label, Laid, Line, Part, Spot, Statement};
use crate::text::Text;
use cell_num::{MAX_SECTION_BYTES, MAX_STORED_BYTES};
use std::alloc::{AllocError, Global};
use std::collections::BTreeSet;

/// What the lines so far come to.
#[derive(Drop)]
pub struct Progress<'a> {
    /// The section that is chosen.
    pub chosen: Option<Part>,
    /// The sections in the order of their numbers.
    pub parts: Vec<Part>,
    pub bodies: Bodies,
    /// How many labels were made.
    pub made: u32,
    /// Where the label of each name is.
    pub spots: Known<'a, Spot>,
    /// The bindings that directives give names.
    pub bindings: Known<'a, Binding>,
    /// All labels, in order of definition.
    pub labels: Vec<Label<'a>>,
    /// The names that the lines mention, in order.
    pub mentions: Vec<Text<'a>>,
    /// The offsets in `.text` of instructions with `%pcrel_hi` or `%got_pcrel_hi`.
    pub uppers: BTreeSet<u32>,
    /// The entries to come, in order.
    pub references: Vec<Reference<'a>>,
}

impl<'a> Progress<'a> {
    pub fn new(alloc: Global) -> Progress<'a>
        ensures { Follows result [] }
    {
        Progress {
            chosen: None,
            parts: Vec::new(alloc),
            bodies: Bodies::new(alloc),
            made: 0,
            spots: Known::new(alloc),
            bindings: Known::new(alloc),
            labels: Vec::new(alloc),
            mentions: Vec::new(alloc),
            uppers: BTreeSet::new(alloc),
            references: Vec::new(alloc),
        }
    }

    /// Goes on behind the line, unless one of Section, Twice, Long is wrong with it: the first is
    /// answered.
    pub fn place(&mut self, number: u32, line: Line<'a>) -> Result<(), Stop>
        requires made { self.old.made < number }
        requires inside { AreInside line.statement }
        ensures line { (before : List LaidValue) → Follows self.old before → Goes self.new before result (placed_line before number (Ok line.entry)) }
        ensures made { self.new.made ≤ number }
    {
        if let Some(kind) = self.fault_at(&line) {
            return Err(Stop::Fault(kind));
        }
        let laid = self.laid(number, line);
        self.add(&laid)?;
        Ok(())
    }

    /// The line in its place.
    fn laid(&self, number: u32, line: Line<'a>) -> Laid<'a>
        requires { self.now.made < 2 ^ 32 - 1 }
        ensures { result ≡ laid_after self.now number line.entry }
    {
        Laid {
            number,
            part: self.chosen,
            offset: self.offset(),
            made: self.made + 1,
            line,
        }
    }

    /// The size of the section that is chosen.
    fn offset(&self) -> u32
        ensures { result ≡ offset_of self.now }
    {
        match self.chosen {
            Some(part) => self.bodies.of(part).size,
            None => 0,
        }
    }

    /// What is wrong with the line behind those before it.
    fn fault_at(&self, line: &Line<'a>) -> Option<AsmKind>
        ensures { result ≡ fault_after self.now line.now }
    {
        if !may_stand(self.chosen, line) {
            Some(AsmKind::Section)
        } else if self.is_twice(&line.label) || self.is_rebound(&line.statement) {
            Some(AsmKind::Twice)
        } else if is_long(self.chosen, end(&line.statement, self.offset())) {
            Some(AsmKind::Long)
        } else {
            None
        }
    }

    /// Whether an earlier line has the label.
    fn is_twice(&self, label: &Option<Text<'a>>) -> bool
        ensures { result ≡ twice_of self.now label.now }
    {
        match label {
            Some(name) => self.spots.get(name.bytes()).is_some(),
            None => false,
        }
    }

    /// Whether an earlier line gives the name another binding.
    fn is_rebound(&self, statement: &Statement<'a>) -> bool
        ensures { result ≡ rebound_of self.now statement.now }
    {
        match statement {
            Statement::Bind(binding, name) => {
                is_other(*binding, self.bindings.get(name.bytes()))
            }
            _ => false,
        }
    }

    /// Goes on behind a line.
    fn add(&mut self, laid: &Laid<'a>) -> Result<(), AllocError>
        requires made { self.old.made < 2 ^ 32 - 1 }
        requires fits { long_of laid.now.part (laid.now.offset + taken laid.now.line.statement laid.now.offset) ≡ false }
        requires room { HasRoom laid.now }
        ensures adds { OnOk result (Adds self.old self.new laid.now) }
        ensures made { self.new.made ≤ self.old.made + 1 }
    {
        if makes_label(&laid.line.statement) {
            self.made += 1;
        }
        put_spot(&mut self.spots, laid)?;
        put_binding(&mut self.bindings, &laid.line.statement)?;
        put_labels(&mut self.labels, laid)?;
        put_mentions(&mut self.mentions, &laid.line)?;
        put_upper(&mut self.uppers, laid)?;
        put_references(&mut self.references, laid)?;
        self.bodies.add(laid)?;
        if let Statement::Choose(part) = &laid.line.statement {
            self.chosen = Some(*part);
        }
        add_choice(&mut self.parts, &laid.line.statement)
    }
}

/// Whether another binding was given than this.
fn is_other(binding: Binding, given: Option<Binding>) -> bool
    ensures { result ≡ other_of binding given }
{
    matches!(
        (binding, given),
        (Binding::Global, Some(Binding::Weak)) | (Binding::Weak, Some(Binding::Global))
    )
}

fn may_stand(part: Option<Part>, line: &Line<'_>) -> bool
    ensures { result ≡ may_stand_of part line.now }
{
    match part {
        Some(part) => takes(part, &line.statement),
        None => line.label.is_none() && lays_nothing(&line.statement),
    }
}

/// Whether the statement may stand in that section.
fn takes(part: Part, statement: &Statement<'_>) -> bool
    ensures { result ≡ takes_of part statement.now }
{
    match (part, statement) {
        (Part::Text, Statement::Zeros(count)) => *count % 4 == 0,
        (Part::Text, Statement::Align(unit)) => *unit >= 4,
        (Part::Text, Statement::Bytes(Content::Narrow, _)) => false,
        (Part::Rodata | Part::Data, Statement::Bytes(Content::Code, _)) => false,
        (Part::Bss, Statement::Bytes(_, _)) => false,
        _ => true,
    }
}

fn lays_nothing(statement: &Statement<'_>) -> bool
    ensures { result ≡ lays_none statement.now }
{
    matches!(
        statement,
        Statement::Nothing | Statement::Choose(_) | Statement::Bind(_, _)
    )
}

fn is_long(part: Option<Part>, size: u128) -> bool
    ensures { result ≡ long_of part size }
{
    match part {
        Some(Part::Bss) => size > u128::from(MAX_SECTION_BYTES),
        Some(_) => size > u128::from(MAX_STORED_BYTES),
        None => false,
    }
}
