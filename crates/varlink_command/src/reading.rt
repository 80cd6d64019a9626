// Definitions and sheets are read from files.
ghost use Rattle.std.specs.Prelude.{◌≡◌, ◌++◌, ◌∷◌, [], ℕ, List, Some, IfSome, OnOk};
ghost use Rattle.varlink_command.specs.Definitions.{AsksOnce, ReadsDefinition, ReadsFile, ReadsText, FilesFault, is_want as want};
ghost use Rattle.varlink_command.specs.Sheets.{ReadsSheet, is_memory};

use crate::faults::{Fault, Which};
use idl_grammar::{IdlFault, read};
use idl_tree::Checked;
use link_port::{FileFault, Files, List};
use sheet_draft::SHEET_LIMIT;
use sheet_form::{Sheet, SheetFault};
use std::alloc::Global;

/// The most bytes that a definition's file may hold.
pub const DEFINITION_LIMIT: u64 = 1_048_576;

/// Reads the definition that the file at this path holds.
pub fn read_definition<F: Files>(alloc: Global, files: &mut F, path: &str) -> Result<Checked, Fault>
    ensures reads { ReadsDefinition (F.holds files.old path.now) result }
    ensures counted { FilesFault (F.faults files.old) (F.faults files.new) result }
    ensures asked { AsksOnce (F.paths files.old) (F.paths files.new) path.now }
    ensures kept { (name : List ℕ) → F.holds files.new name ≡ F.holds files.old name }
{
    let bytes = match read_file(alloc, files, Which::First, path, DEFINITION_LIMIT) {
        Ok(bytes) => bytes,
        Err(fault) => return Err(fault),
    };
    definition_of(alloc, bytes.as_slice())
}

/// Reads a text as a definition.
pub fn definition_of(alloc: Global, text: &[u8]) -> Result<Checked, Fault>
    ensures { ReadsText text.now result }
{
    match read(alloc, text) {
        Ok(tree) => Ok(tree),
        Err(why) if is_want(&why) => {
            drop(why);
            Err(Fault::Memory)
        }
        Err(why) => Err(Fault::NoDefinition(why)),
    }
}

fn is_want(why: &IdlFault) -> bool
    ensures { result ≡ want why.now }
{
    matches!(why, IdlFault::Memory)
}

/// Reads the sheet that the file at this path holds. It is refused where the file cannot be read or holds more
/// bytes than a sheet may, where the text is no sheet, and for want of memory.
pub fn read_sheet<F: Files>(alloc: Global, files: &mut F, path: &str) -> Result<Sheet, Fault>
    ensures reads { ReadsSheet (F.holds files.old path.now) result }
    ensures counted { FilesFault (F.faults files.old) (F.faults files.new) result }
    ensures asked { AsksOnce (F.paths files.old) (F.paths files.new) path.now }
    ensures kept { (name : List ℕ) → F.holds files.new name ≡ F.holds files.old name }
{
    let bytes = match read_file(alloc, files, Which::First, path, SHEET_LIMIT) {
        Ok(bytes) => bytes,
        Err(fault) => return Err(fault),
    };
    match sheet_form::read(alloc, bytes.as_slice()) {
        Ok(sheet) => Ok(sheet),
        Err(why) if is_memory(&why) => {
            drop(why);
            Err(Fault::Memory)
        }
        Err(why) => Err(Fault::NoSheet(why)),
    }
}

fn is_memory(why: &SheetFault) -> bool
    ensures { result ≡ is_memory why.now }
{
    matches!(why, SheetFault::Memory)
}

/// Reads what the file at this path holds, which is at most `limit` bytes. It is this one of the files that
/// the words name, which the fault tells where it cannot be read or is longer; want of memory is told apart.
pub fn read_file<F: Files>(
    alloc: Global,
    files: &mut F,
    which: Which,
    path: &str,
    limit: u64,
) -> Result<List<u8>, Fault>
    ensures reads { ReadsFile which limit (F.holds files.old path.now) result }
    ensures counted { FilesFault (F.faults files.old) (F.faults files.new) result }
    ensures asked { AsksOnce (F.paths files.old) (F.paths files.new) path.now }
    ensures done { OnOk result (IfSome (F.paths files.old) (λ paths. F.paths files.new ≡ Some (paths ++ path.now ∷ []))) }
    ensures kept { (name : List ℕ) → F.holds files.new name ≡ F.holds files.old name }
{
    match files.read(alloc, path, limit) {
        Ok(bytes) => Ok(bytes),
        Err(FileFault::Failed) => Err(Fault::Unreadable(which)),
        Err(FileFault::TooLong) => Err(Fault::PastLimit(which)),
        Err(FileFault::Memory) => Err(Fault::Memory),
    }
}
