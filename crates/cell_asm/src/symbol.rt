//! The symbols of an object.

ghost use Rattle.std.specs.Prelude.{◌≡◌, ◌==◌, ℕ, List, None, OnOk, ◌≤◌, ◌+◌, [], ◌∷◌, ◌++◌, fold, length, not, IfOk};
ghost use Rattle.std.specs.Option.{option_map_or};
ghost use Rattle.cell_num.specs.Lists.{or_else, where_true};
ghost use Rattle.cell_asm.specs.Places.{is_key};
ghost use Rattle.cell_asm.specs.Numberings.{number_of, number_kept, Lists, Locals, mentioned, Mentions, home_in, symbol_in, is_bound_in};
ghost use Rattle.cell_asm.specs.Objects.{bind_given, key_name as name_of};
ghost use Rattle.cell_asm.specs.declared.statement.Key.{Key as KeyValue};
ghost use Rattle.cell_asm.specs.declared.statement.Key.TheVariants as keys;
ghost use Rattle.cell_object.specs.declared.object.Symbol.{Symbol as SymbolValue};

use crate::known::Known;
use crate::place::Progress;
use crate::section::part_number;
use crate::statement::{Binding, Key, Spot};
use crate::text::Text;
use cell_num::{Bytes, Listed};
use cell_object::{Bind, Home, Sort, Symbol};
use cell_text::put_dec;
use std::alloc::{AllocError, Global};
use std::collections::BTreeMap;

/// The numbers of symbols, by their names and by the numbers of made labels.
#[derive(Drop)]
pub struct Numbering<'a> {
    pub named: Known<'a, u32>,
    pub made: BTreeMap<u32, u32>,
}

impl<'a> Numbering<'a> {
    fn new(alloc: Global) -> Numbering<'a>
        ensures { (q : KeyValue) → number_of result q ≡ None }
    {
        Numbering {
            named: Known::new(alloc),
            made: BTreeMap::new(alloc),
        }
    }

    fn get(&self, key: &Key<'a>) -> Option<u32>
        ensures { result ≡ number_of self.now key.now }
    {
        match key {
            Key::Named(name) => self.named.get(name.bytes()),
            Key::Made(made) => self.made.get(made).copied(),
        }
    }

    /// Gives a key its number, where it has none.
    #[tactic(auto, using(crate::proofs::SymbolLemmas::added))]
    fn add(&mut self, key: &Key<'a>, number: u32) -> Result<(), AllocError>
        ensures { OnOk result ((q : KeyValue) → number_of self.new q ≡ or_else (number_of self.old q) (where_true (is_key key.now q) number)) }
    {
        match key {
            Key::Named(name) => self.named.add(name.bytes(), number),
            Key::Made(made) => self.add_made(*made, number),
        }
    }

    fn add_made(&mut self, made: u32, number: u32) -> Result<(), AllocError>
        ensures made { OnOk result ((q : ℕ) → number_of self.new (keys.Made q) ≡ or_else (number_of self.old (keys.Made q)) (where_true (made == q) number)) }
        ensures names { self.new.named ≡ self.old.named }
    {
        if self.made.get(&made).is_none() {
            self.made.insert(made, number)?;
        }
        Ok(())
    }
}

/// The symbols, and their numbers.
#[derive(Drop)]
pub struct Symbols<'a> {
    pub alloc: Global,
    pub list: Vec<Symbol>,
    pub numbers: Numbering<'a>,
}

/// The symbols: the labels that no directive gives a binding, then all other names.
pub fn make_symbols<'a>(alloc: Global, kept: &Progress<'a>) -> Result<Symbols<'a>, AllocError>
    requires { length kept.now.parts.items ≤ 4 }
    ensures { IfOk result (λ s. Mentions s kept.now (fold (mentioned kept.now) [] kept.now.mentions.items)) }
{
    let mut symbols = Symbols {
        alloc,
        list: Vec::new(alloc),
        numbers: Numbering::new(alloc),
    };
    symbols.add_labels(kept)?;
    symbols.add_mentions(kept)?;
    Ok(symbols)
}

/// Whether no directive gives the label a binding.
fn is_local<'a>(bindings: &Known<'a, Binding>, key: &Key<'a>) -> bool
    ensures { result ≡ not (is_bound_in bindings.now key.now) }
{
    match key {
        Key::Named(name) => bindings.get(name.bytes()).is_none(),
        Key::Made(_) => true,
    }
}

/// The binding of a name that isn't LOCAL, by what a directive gives it.
fn bind_of(binding: Option<Binding>) -> Bind
    ensures { result ≡ bind_given binding }
{
    match binding {
        Some(Binding::Weak) => Bind::Weak,
        _ => Bind::Global,
    }
}

/// The name of a symbol.
fn key_name(alloc: Global, key: &Key<'_>) -> Result<Bytes, AllocError>
    ensures { IfOk result (λ name. name ≡ name_of key.now) }
{
    let mut name = Vec::new(alloc);
    match key {
        Key::Named(text) => name.extend_from_slice(text.bytes())?,
        Key::Made(number) => {
            name.extend_from_slice(b".La")?;
            put_dec(u64::from(*number), &mut name)?;
        }
    }
    Ok(Bytes::from_vec(name))
}

impl<'a> Symbols<'a> {
    /// The number of a symbol, from 1.
    pub fn number(&self, key: &Key<'a>) -> u32
        ensures { result ≡ number_kept self.now key.now }
    {
        self.numbers.get(key).unwrap_or(0)
    }

    pub fn into_list(self) -> Listed<Symbol>
        ensures { result ≡ self.entry.list.items }
    {
        Listed::from_vec(self.list)
    }

    /// The number of the next symbol. So many symbols that their number is past a `u32` are past all
    /// memory too.
    fn next_number(&self) -> Result<u32, AllocError>
        ensures { IfOk result (λ n. n ≡ length self.now.list.items + 1) }
    {
        let count = self.list.len();
        if count >= u32::MAX as usize {
            return Err(AllocError);
        }
        Ok(count as u32 + 1)
    }

    /// Appends a symbol, and keeps its number. Without a spot it is undefined.
    fn add(
        &mut self,
        kept: &Progress<'a>,
        key: &Key<'a>,
        bind: Bind,
        spot: Option<Spot>,
    ) -> Result<(), AllocError>
        requires { length kept.now.parts.items ≤ 4 }
        ensures { OnOk result ((keys : List KeyValue) → (list : List SymbolValue) → Lists self.old keys list → Lists self.new (keys ++ key.now ∷ []) (list ++ symbol_in kept.now key.now bind spot ∷ [])) }
    {
        let number = self.next_number()?;
        let name = key_name(self.alloc, key)?;
        self.list.push(Symbol {
            name,
            bind,
            sort: Sort::NoType,
            home: home(kept, spot),
            value: value(spot),
            size: 0,
        })?;
        self.numbers.add(key, number)?;
        Ok(())
    }

    /// Appends the symbols of the labels that no directive gives a binding.
    fn add_labels(&mut self, kept: &Progress<'a>) -> Result<(), AllocError>
        requires few { length kept.now.parts.items ≤ 4 }
        requires none { Lists self.old [] [] }
        ensures { OnOk result (Mentions self.new kept.now []) }
    {
        for label in &kept.labels {
            if is_local(&kept.bindings, &label.key) {
                let spot = Spot {
                    part: label.part,
                    offset: label.offset,
                };
                self.add(kept, &label.key, Bind::Local, Some(spot))?;
            }
        }
        Ok(())
    }

    /// Appends the names that are mentioned and have no symbol yet.
    fn add_mentions(&mut self, kept: &Progress<'a>) -> Result<(), AllocError>
        requires few { length kept.now.parts.items ≤ 4 }
        requires none { Mentions self.old kept.now [] }
        ensures { OnOk result (Mentions self.new kept.now (fold (mentioned kept.now) [] kept.now.mentions.items)) }
    {
        for name in &kept.mentions {
            self.add_mention(kept, name)?;
        }
        Ok(())
    }

    fn add_mention(&mut self, kept: &Progress<'a>, name: &Text<'a>) -> Result<(), AllocError>
        requires { length kept.now.parts.items ≤ 4 }
        ensures { OnOk result ((names : List (List ℕ)) → Mentions self.old kept.now names → Mentions self.new kept.now (mentioned kept.now names name.now)) }
    {
        let key = Key::Named(name.again());
        if self.numbers.get(&key).is_none() {
            let text = name.bytes();
            let spot = kept.spots.get(text);
            let binding = kept.bindings.get(text);
            self.add(kept, &key, bind_of(binding), spot)?;
        }
        Ok(())
    }
}

fn home(kept: &Progress<'_>, spot: Option<Spot>) -> Home
    requires { length kept.now.parts.items ≤ 4 }
    ensures { result ≡ home_in kept.now.parts.items spot }
{
    match spot {
        Some(spot) => Home::Inside(part_number(&kept.parts, spot.part)),
        None => Home::Undef,
    }
}

fn value(spot: Option<Spot>) -> u64
    ensures { result ≡ option_map_or (λ s. s.offset) spot 0 }
{
    spot.map_or(0, |spot| u64::from(spot.offset))
}
