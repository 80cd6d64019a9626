// A definition is read, one item after another, with the notes that wait for their slot.
ghost use Rattle.std.specs.Prelude.{◌≡◌, ◌≤◌, [], ◌∷◌, ◌++◌, IfOk, IsUtf8, All, map};
ghost use Rattle.idl_token.specs.Lex.{Lexemes, lexeme};
ghost use Rattle.idl_tree.specs.declared.trees.Interface.{Interface};
ghost use Rattle.idl_rules.specs.Settle.{note_text};
ghost use Rattle.idl_rules.specs.Spells.{Accepts};
ghost use Rattle.idl_rules.specs.Reading.{run};
ghost use Rattle.idl_rules.specs.declared.states.State.TheVariants.{Start};
ghost use Rattle.idl_grammar.specs.Follows.{Continues, Reads, Ends, IsReadable};
ghost use Rattle.idl_grammar.specs.declared.faults.IdlFault.{IdlFault};
ghost use Rattle.idl_grammar.specs.Refuses.{Answers, Gives, Refuses, Tells};
ghost use Rattle.idl_grammar.specs.Follows.{TreeOf, Checks, of_token, of_name};
ghost use Rattle.idl_tree.specs.Form.{Form, Deep};

use crate::faults::{IdlFault, Stop};
use crate::steps::{is_slot, read_plain, read_slot};
use crate::words::{text_of, trimmed};
use idl_rules::{Head, State};
use idl_token::{Item, ItemKind, TokenFault, items};
use idl_tree::{Checked, Interface, MOST_BRACKETS, NameFault};
use link_port::{List, Memory, Text};
use std::alloc::Global;

/// What was read, with the notes whose slot is to come.
#[derive(Drop)]
pub struct Progress {
    pub state: State,
    pub waiting: List<Text>,
}

/// Reads an interface definition, notes included.
///
/// It is accepted exactly where the text spells a tree, its brackets are at most 64 deep, and its
/// names are unique and defined; such a text is refused for want of memory alone. A refusal tells the
/// offset of the first item with which no definition goes on, or of the first `(` that is too deep.
/// Each cause is told exactly where it is there, want of memory apart: no text has two.
pub fn read(alloc: Global, text: &[u8]) -> Result<Checked, IdlFault>
    ensures answer { Answers result text.now }
    ensures complete { (tree : Interface) → Accepts text.now tree → Gives result tree }
    ensures refused { (cause : IdlFault) → Refuses cause text.now → Tells result cause }
{
    match read_tree(alloc, text) {
        Ok(tree) => check_names(alloc, tree),
        Err(fault) => Err(fault),
    }
}

// Reads the tree that the text spells.
fn read_tree(alloc: Global, text: &[u8]) -> Result<Interface, IdlFault>
    ensures { TreeOf result text.now }
{
    match items(alloc, text) {
        Ok(items) => read_items(alloc, items.as_slice(), text.len() as u64),
        Err(fault) => Err(token_fault(fault)),
    }
}

/// A fault of the items.
pub fn token_fault(fault: TokenFault) -> IdlFault
    ensures { result ≡ of_token fault }
{
    match fault {
        TokenFault::Memory => IdlFault::Memory,
        TokenFault::NotUtf8 { at } => IdlFault::Token(TokenFault::NotUtf8 { at }),
        TokenFault::BadByte { at } => IdlFault::Token(TokenFault::BadByte { at }),
    }
}

// Checks the names of the tree.
fn check_names(alloc: Global, tree: Interface) -> Result<Checked, IdlFault>
    requires formed { Form tree }
    requires within { Deep tree ≤ 64 }
    ensures { Checks result tree }
{
    match Checked::of(alloc, tree) {
        Ok(checked) => Ok(checked),
        Err(fault) => Err(name_fault(fault)),
    }
}

/// A fault of the names.
pub fn name_fault(fault: NameFault) -> IdlFault
    ensures { result ≡ of_name fault }
{
    match fault {
        NameFault::Memory => IdlFault::Memory,
        fault => IdlFault::Name(fault),
    }
}

// Reads the tree of the items of a text of length `end`.
fn read_items(alloc: Global, items: &[Item<'_>], end: u64) -> Result<Interface, IdlFault>
    requires { All IsReadable items.now }
    ensures { Reads result items.now end }
{
    let mut progress = Progress {
        state: State::Start,
        waiting: List::new(alloc),
    };
    for item in items {
        progress = match read_item(alloc, progress, item) {
            Ok(next) => next,
            Err(Stop::Stray) => return Err(IdlFault::Syntax { at: item.at }),
            Err(Stop::Beyond) => return Err(IdlFault::TooDeep { at: item.at }),
            Err(Stop::Memory) => return Err(IdlFault::Memory),
        };
    }
    finished(progress, end)
}

// The tree, where a definition is whole.
fn finished(progress: Progress, end: u64) -> Result<Interface, IdlFault>
    ensures { Ends result progress.state progress.waiting end }
{
    let Progress { state, waiting } = progress;
    match state {
        State::Between { head } => {
            let Head {
                notes,
                name,
                members,
            } = head;
            Ok(Interface {
                notes,
                name,
                members,
                tail: waiting,
            })
        }
        state => {
            drop((state, waiting));
            Err(IdlFault::Syntax { at: end })
        }
    }
}

// Takes one more item.
fn read_item(alloc: Global, progress: Progress, item: &Item<'_>) -> Result<Progress, Stop>
    requires { IsReadable item.now }
    ensures { (items : Lexemes) → Continues result
        (run 64 progress.state progress.waiting (lexeme item.now ∷ items)) items }
{
    let Progress { state, waiting } = progress;
    if item.kind == ItemKind::Note {
        return match with_note(alloc, waiting, item.text) {
            Ok(waiting) => Ok(Progress { state, waiting }),
            Err(_) => {
                drop(state);
                Err(Stop::Memory)
            }
        };
    }
    if is_slot(&state, item) {
        let state = read_slot(alloc, state, waiting, item)?;
        Ok(Progress {
            state,
            waiting: List::new(alloc),
        })
    } else {
        match read_plain(alloc, state, item, MOST_BRACKETS) {
            Ok(state) => Ok(Progress { state, waiting }),
            Err(stop) => {
                drop(waiting);
                Err(stop)
            }
        }
    }
}

// The notes with one more behind them.
fn with_note(alloc: Global, notes: List<Text>, spelling: &[u8]) -> Result<List<Text>, Memory>
    requires { IsUtf8 (note_text spelling.now) }
    ensures { IfOk result (λ more. more ≡ notes ++ note_text spelling.now ∷ []) }
{
    let mut notes = notes;
    match note_of(alloc, spelling) {
        Ok(note) => {
            notes.push(note)?;
            Ok(notes)
        }
        Err(fault) => {
            drop(notes);
            Err(fault)
        }
    }
}

// The text of a note, which follows its `#`.
fn note_of(alloc: Global, spelling: &[u8]) -> Result<Text, Memory>
    requires { IsUtf8 (note_text spelling.now) }
    ensures { IfOk result (λ text. text ≡ note_text spelling.now) }
{
    match spelling {
        [_, text @ ..] => Text::of(alloc, text_of(trimmed(text))),
        [] => Text::of(alloc, ""),
    }
}
