//! The laws on what a machine has of the files that it runs over: each cell goes on to be what its file is read as, and all
//! names to be spelled as such. Each law is the contract of a public function with an empty body.
#![tactic(auto)]

ghost use Rattle.std.specs.Prelude.{ℕ, ◌≡◌, true, List, Ok, map};
ghost use Rattle.std.specs.List.{list_all};
ghost use Rattle.cell_depot.specs.ObjectName.{is_object_name};
ghost use Rattle.cell_script.specs.Script.{is_said};
ghost use Rattle.cell_world.specs.declared.command.Command.{Command};
ghost use Rattle.cell_world.specs.declared.file.File.{File};
ghost use Rattle.cell_world.specs.Answer.{Done};
ghost use Rattle.cell_world.specs.Coherent.{AreSound, IsCoherent};
ghost use Rattle.cell_world.specs.Gather.{Source, source_of};
ghost use Rattle.cell_world.specs.Next.{outcome_of};
ghost use Rattle.cell_world.specs.World.{World, empty_world};
ghost use Rattle.cell_origin_law.specs.Readings.{AreApart, AreRead};
ghost use Rattle.cell_origin_law.specs.Spelled.{AreNamed, IsSpelled};

/// Object files have names and readings of which cells come out spelled.
pub fn files_are_named()
    ensures { (files : List File) → list_all (λ f. is_object_name f.name) files ≡ true → AreNamed (map source_of files) }
{}

/// The machine is spelled before the first command.
pub fn empty_is_spelled()
    ensures { (base pages : ℕ) → IsSpelled (empty_world base pages) }
{}

/// Each accepted command that a line can say leaves each cell what its file is read as, and all names spelled.
pub fn commands_keep_files()
    ensures read { (sources : List Source) (w : World) (command : Command) (d : Done) → AreSound sources → AreApart sources → AreNamed sources → IsCoherent w → AreRead sources w → IsSpelled w →
        is_said command ≡ true → outcome_of sources w command ≡ Ok d → AreRead sources d.world }
    ensures spelled { (sources : List Source) (w : World) (command : Command) (d : Done) → AreSound sources → AreApart sources → AreNamed sources → IsCoherent w → AreRead sources w → IsSpelled w →
        is_said command ≡ true → outcome_of sources w command ≡ Ok d → IsSpelled d.world }
{}
