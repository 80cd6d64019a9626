// One type is read by itself.
ghost use Rattle.std.specs.Prelude.{◌≡◌, [], None, if◌then◌else◌, IfOk, IsUtf8, All};
ghost use Rattle.idl_token.specs.Lex.{lexeme};
ghost use Rattle.idl_tree.specs.declared.trees.TypeRef.{TypeRef};
ghost use Rattle.idl_tree.specs.Faults.{type_fault, defines};
ghost use Rattle.idl_rules.specs.Settle.{is_slot};
ghost use Rattle.idl_rules.specs.Reading.{Stray, here, slot_next, plain_next};
ghost use Rattle.idl_types.specs.Types.{AcceptsType};
ghost use Rattle.idl_types.specs.TypeReading.{at_type, outer_head, outer_member, outer_level, is_whole_type, type_next, type_read};
ghost use Rattle.idl_grammar.specs.Follows.{Follows};
ghost use Rattle.idl_grammar.specs.declared.faults.IdlFault.{IdlFault};
ghost use Rattle.idl_grammar.specs.Refuses.{Tells};
ghost use Rattle.idl_grammar.specs.RefusesType.{AnswersType, GivesType, RefusesType};
ghost use Rattle.idl_grammar.specs.FollowsType.{TypeOf, ChecksType, ReadsType, EndsType, only_type};

use crate::faults::{IdlFault, Stop};
use crate::reader::{name_fault, token_fault};
use crate::steps::{is_slot, read_plain, read_slot, stray};
use idl_rules::{Begun, Head, Kind, Level, Spot, Stack, State};
use idl_token::{Item, ItemKind, items};
use idl_tree::{Checked, Field, MOST_BRACKETS, TypeRef};
use link_port::{List, Memory, Text};
use std::alloc::Global;

/// Reads one type and nothing else, as the type of a field is read, but with no notes.
///
/// It is accepted exactly where the text spells a type, its brackets are at most 64 deep, the names of
/// each bracket are distinct, and the types that it uses are those of `scope`; such a text is refused
/// for want of memory alone. A refusal tells the offset of the first item with which no type goes on,
/// as each note is one, or of the first `(` that is too deep; where the type is not whole, it tells the
/// text's length. Else it tells the first fault of its names. Each cause is told exactly where it is
/// there, want of memory apart: no text has two.
pub fn read_type(alloc: Global, text: &[u8], scope: &Checked) -> Result<TypeRef, IdlFault>
    ensures answer { AnswersType result text.now scope.now }
    ensures complete { (of : TypeRef) → AcceptsType text.now scope.now of → GivesType result of }
    ensures refused { (cause : IdlFault) → RefusesType cause text.now scope.now → Tells result cause }
{
    match read_bare_type(alloc, text) {
        Ok(of) => check_used_names(alloc, of, scope),
        Err(fault) => Err(fault),
    }
}

// Checks the names of the type.
fn check_used_names(alloc: Global, of: TypeRef, scope: &Checked) -> Result<TypeRef, IdlFault>
    ensures { ChecksType result of (type_fault (defines scope.now) of) }
{
    match scope.check_type(alloc, &of) {
        Ok(()) => Ok(of),
        Err(fault) => Err(name_fault(fault)),
    }
}

// Reads the type that the text spells.
fn read_bare_type(alloc: Global, text: &[u8]) -> Result<TypeRef, IdlFault>
    ensures { TypeOf result text.now }
{
    match items(alloc, text) {
        Ok(items) => read_type_items(alloc, items.as_slice(), text.len() as u64),
        Err(fault) => Err(token_fault(fault)),
    }
}

// Reads the type of the items of a text of length `end`.
fn read_type_items(alloc: Global, items: &[Item<'_>], end: u64) -> Result<TypeRef, IdlFault>
    requires { All (λ item. IsUtf8 item.text.now) items.now }
    ensures { ReadsType result items.now end }
{
    let mut state = type_start(alloc)?;
    for item in items {
        state = match take_type_item(alloc, state, item) {
            Ok(next) => next,
            Err(Stop::Stray) => return Err(IdlFault::Syntax { at: item.at }),
            Err(Stop::Beyond) => return Err(IdlFault::TooDeep { at: item.at }),
            Err(Stop::Memory) => return Err(IdlFault::Memory),
        };
    }
    finished_type(state, end)
}

// Before a type: as that of the first field of a bracket.
fn type_start(alloc: Global) -> Result<State, Memory>
    ensures { IfOk result (λ state. state ≡ at_type) }
{
    let (head, member) = outer_member(alloc)?;
    match outer_level(alloc) {
        Ok(level) => Ok(State::Inside {
            head,
            member,
            levels: Stack::new(alloc),
            spot: Spot::Prefixes(level),
        }),
        Err(fault) => {
            drop((head, member));
            Err(fault)
        }
    }
}

// interface a.b type A
fn outer_member(alloc: Global) -> Result<(Head, Begun), Memory>
    ensures { IfOk result (λ outer. outer ≡ (outer_head, outer_member)) }
{
    let name = Text::of(alloc, "a.b")?;
    match Text::of(alloc, "A") {
        Ok(member) => Ok((
            Head {
                notes: List::new(alloc),
                name,
                members: List::new(alloc),
            },
            Begun {
                notes: List::new(alloc),
                name: member,
                kind: Kind::Shape,
            },
        )),
        Err(fault) => {
            drop(name);
            Err(fault)
        }
    }
}

// (a:
fn outer_level(alloc: Global) -> Result<Level, Memory>
    ensures { IfOk result (λ level. level ≡ outer_level) }
{
    let name = Text::of(alloc, "a")?;
    Ok(Level {
        fields: List::new(alloc),
        notes: List::new(alloc),
        name,
        prefixes: List::new(alloc),
    })
}

// Takes one more item of a type.
fn take_type_item(alloc: Global, state: State, item: &Item<'_>) -> Result<State, Stop>
    requires { IsUtf8 item.now.text.now }
    ensures { Follows result (type_next 64 state (lexeme item.now)) }
{
    match item.kind {
        ItemKind::Word | ItemKind::Mark => take_type_part(alloc, state, item),
        ItemKind::Note => stray(state),
    }
}

// Takes one more word or mark of a type. The bracket outside it does not count.
fn take_type_part(alloc: Global, state: State, item: &Item<'_>) -> Result<State, Stop>
    requires { IsUtf8 item.now.text.now }
    ensures { Follows result (if is_whole_type state then Stray
        else (if is_slot (here state) (lexeme item.now)
        then slot_next state [] (lexeme item.now)
        else plain_next 65 state (lexeme item.now))) }
{
    if is_whole_type(&state) {
        stray(state)
    } else if is_slot(&state, item) {
        read_slot(alloc, state, List::new(alloc), item)
    } else {
        read_plain(alloc, state, item, MOST_BRACKETS + 1)
    }
}

// Whether the type is whole.
fn is_whole_type(state: &State) -> bool
    ensures { result ≡ is_whole_type state.now }
{
    match state {
        State::Inside {
            levels,
            spot: Spot::Fields(_),
            ..
        } => levels.len() == 0,
        _ => false,
    }
}

// The type, where it is whole.
fn finished_type(state: State, end: u64) -> Result<TypeRef, IdlFault>
    ensures { EndsType result state end }
{
    match type_read(state) {
        Some(of) => Ok(of),
        None => Err(IdlFault::Syntax { at: end }),
    }
}

fn type_read(state: State) -> Option<TypeRef>
    ensures { result ≡ type_read state }
{
    match state {
        State::Inside {
            head,
            member,
            levels,
            spot,
        } => {
            let is_outermost = levels.len() == 0;
            drop((head, member, levels));
            match spot {
                Spot::Fields(fields) if is_outermost => only_type(fields),
                spot => no_type(spot),
            }
        }
        state => no_type(state),
    }
}

// The type of the only field.
fn only_type(fields: List<Field>) -> Option<TypeRef>
    ensures { result ≡ only_type fields }
{
    let mut fields = fields.into_vec();
    match fields.pop() {
        Some(Field { notes, name, of }) if fields.len() == 0 => {
            drop((notes, name, fields));
            Some(of)
        }
        last => no_type((last, fields)),
    }
}

// Lets go of what was read, which is no whole type.
fn no_type<T: Drop>(left: T) -> Option<TypeRef>
    ensures { result ≡ None }
{
    drop(left);
    None
}
