//! From a text to a machine at the start of its file.
ghost use Rattle.std.specs.Prelude.{◌≡◌, ℕ, ◌++◌, ◌≤◌, [], IfOk, IfErr, OnOk, OnErr};
ghost use Rattle.thin_form.specs.Programs.{IsProgram, IsSmall};
ghost use Rattle.elf_file.specs.Shape.{NoShape};
ghost use Rattle.rv_machine.specs.Start.{Loads};
ghost use Rattle.rv_machine.specs.Kept.{state_of};
ghost use Rattle.rn_session.specs.Answers.{IsFileOf, StartsOn, NotedAt, compiled};
ghost use Rattle.thin_text.specs.declared.thin.Thin.TheVariants.{Program};
ghost use Rattle.rn_session.specs.Texts.{Explains};
ghost use Rattle.rn_session.specs.Made as m;

use f77_parse::read_law;
use f77_tree::{List, Refused};
use fixed_form::read_units;
use rn_draft::{accept, drafted, drafts_law};
use rn_ports::{Kind, Tally};
use rv_machine::{ElfRefused, Machine};
use std::alloc::{AllocError, Global};
use thin_code::program_file;
use thin_form::Statement;
use thin_meaning::texts_law;
use thin_text::{Thin, sizes_law, thin_of};

/// What is found of a thin text, where its draft was accepted.
fn body_of(thin: Thin) -> Result<List<Statement>, Refused>
    requires { m.IsKnown thin }
    ensures body { IfOk result (λ body. thin ≡ Program body) }
    ensures fault { IfErr result (λ e. m.Breaks e thin) }
{
    match thin {
        Thin::Program(body) => Ok(body),
        Thin::Broken(fault) => Err(Refused::Fault(fault)),
        Thin::Nothing => unreachable!(),
    }
}

/// The statements of the thin program that a text is, or the fault of the text.
pub fn thin_body(alloc: Global, text: &[u8]) -> Result<List<Statement>, Refused>
    ensures text { IfOk result (λ body. m.IsSizedText text.now body) }
    ensures program { IfOk result (λ body. IsProgram body) }
    ensures small { IfOk result (λ body. IsSmall body) }
    ensures fault { IfErr result (λ e. Explains e text.now) }
{
    read_law();
    sizes_law();
    drafts_law();
    let units = read_units(alloc, text)?;
    let thin = thin_of(alloc, units.as_slice())?;
    let draft = drafted(alloc, units)?;
    accept(alloc, draft.as_slice())?;
    body_of(thin)
}

/// The bytes of an ELF file that does what the thin program does that the text is. One Compile of MAIN is noted where
/// the file was made, and nothing else.
pub fn thin_file<T: Tally>(alloc: Global, text: &[u8], tally: &mut T) -> Result<Vec<u8>, Refused>
    ensures file { IfOk result (λ file. IsFileOf text.now file.items) }
    // The fault is that of the reading, else that of the first unit that has one, else that of a text that isn't thin.
    ensures refused { IfErr result (λ refused. Explains refused text.now) }
    ensures noted { OnOk result (T.notes tally.new ≡ T.notes tally.old ++ compiled) }
    ensures silent { OnErr result (T.notes tally.new ≡ T.notes tally.old) }
{
    texts_law();
    let body = match thin_body(alloc, text) {
        Ok(body) => body,
        Err(refused) => return Err(refused),
    };
    let Ok(file) = program_file(alloc, body.as_slice()) else {
        return Err(Refused::OutOfMemory);
    };
    match tally.note(alloc, Kind::Compile, b"MAIN") {
        Ok(()) => Ok(file),
        Err(_) => Err(Refused::OutOfMemory),
    }
}

// The machine at the start of a file that is one.
fn started(alloc: Global, file: &[u8]) -> Result<Machine, AllocError>
    requires { NoShape file.now → ⊥ }
    ensures { IfOk result (λ machine. Loads file.now [] (state_of machine)) }
{
    match Machine::load(alloc, file, Vec::new(alloc)) {
        Ok(machine) => Ok(machine),
        Err(ElfRefused::OutOfMemory) => Err(AllocError),
        Err(ElfRefused::Malformed) => unreachable!(),
    }
}

/// The machine at the start of the file of a text.
pub fn machine_of<T: Tally>(alloc: Global, text: &[u8], tally: &mut T) -> Result<Machine, Refused>
    ensures starts { IfOk result (λ machine. StartsOn text.now (state_of machine)) }
    ensures refused { IfErr result (λ refused. Explains refused text.now) }
    ensures noted { OnOk result (T.notes tally.new ≡ T.notes tally.old ++ compiled) }
    ensures silent { IfErr result (λ refused. NotedAt refused (T.notes tally.old) (T.notes tally.new)) }
{
    let file = match thin_file(alloc, text, tally) {
        Ok(file) => file,
        Err(refused) => return Err(refused),
    };
    match started(alloc, file.as_slice()) {
        Ok(machine) => Ok(machine),
        Err(_) => Err(Refused::OutOfMemory),
    }
}
