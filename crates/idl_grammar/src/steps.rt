// The steps of a reading: what one item leads to.
ghost use Rattle.std.specs.Prelude.{◌≡◌, not, [], ◌∷◌, ◌++◌, Err, IfOk, IsUtf8};
ghost use Rattle.idl_tree.specs.declared.trees.Body.TheVariants.{Inline};
ghost use Rattle.idl_tree.specs.declared.trees.Prefix.TheVariants.{Maybe};
ghost use Rattle.idl_rules.specs.declared.states.Spot.TheVariants as spot;
ghost use Rattle.idl_rules.specs.declared.states.State.TheVariants.{Inside, Between};
ghost use Rattle.idl_token.specs.Lex.{lexeme};
ghost use Rattle.idl_tree.specs.Names.{is_field_name};
ghost use Rattle.idl_rules.specs.Settle.{is_slot};
ghost use Rattle.idl_rules.specs.Reading.{here, begins_at, slot_next, slot_word, slot_close, plain_next, entry_spot, body_of, word_next, type_word, sign_next, mark_spot, is_open, is_arrow, open_inner, opened, closed, finished, with_member, with_core, with_prefix, is_maybe, ends_with_maybe, takes_enum, kind_of, some_if};
ghost use Rattle.idl_grammar.specs.Follows.{Follows, Finds};
ghost use Rattle.idl_grammar.specs.declared.faults.Stop.TheVariants as stop;

use crate::faults::Stop;
use crate::words::{core_of, is_keyword, keyword_of, mark_of, text_of};
use idl_rules::{Begun, Head, Keyword, Kind, Level, Mark, Spot, Stack, State};
use idl_token::{Item, ItemKind};
use idl_tree::{
    Body, Core, Field, Member, Named, Part, Prefix, TypeRef, is_field_name, is_interface_name,
    is_member_name,
};
use link_port::{Box, List, Memory, Text};
use std::alloc::Global;

/// Whether notes that wait belong before the item.
pub fn is_slot(state: &State, item: &Item<'_>) -> bool
    requires { IsUtf8 item.now.text.now }
    ensures { result ≡ is_slot (here state.now) (lexeme item.now) }
{
    match item.kind {
        ItemKind::Word => match state {
            State::Inside { spot, .. } => begins_entry(spot),
            _ => is_keyword(text_of(item.text)),
        },
        ItemKind::Mark => item.text == b")".as_slice(),
        ItemKind::Note => false,
    }
}

/// What a slot leads to, with the notes before it.
pub fn read_slot(
    alloc: Global,
    state: State,
    notes: List<Text>,
    item: &Item<'_>,
) -> Result<State, Stop>
    requires { IsUtf8 item.now.text.now }
    ensures { Follows result (slot_next state notes (lexeme item.now)) }
{
    match item.kind {
        ItemKind::Word => read_slot_word(alloc, state, notes, text_of(item.text)),
        ItemKind::Mark => read_close(alloc, state, notes),
        ItemKind::Note => stray((state, notes)),
    }
}

/// What a word or a mark that is no slot leads to, where at most so many brackets may be open.
pub fn read_plain(alloc: Global, state: State, item: &Item<'_>, most: u64) -> Result<State, Stop>
    requires { IsUtf8 item.now.text.now }
    ensures { Follows result (plain_next most state (lexeme item.now)) }
{
    match item.kind {
        ItemKind::Word => read_word(alloc, state, text_of(item.text)),
        ItemKind::Mark => match mark_of(item.text) {
            Some(mark) => read_mark(alloc, state, mark, most),
            None => stray(state),
        },
        ItemKind::Note => stray(state),
    }
}

/// Lets go of what was read, with which the item does not go on.
pub fn stray<T: Drop, R>(left: T) -> Result<R, Stop>
    ensures { result ≡ Err stop.Stray }
{
    drop(left);
    Err(Stop::Stray)
}

fn begins_entry(spot: &Spot) -> bool
    ensures { result ≡ begins_at spot.now }
{
    matches!(spot, Spot::First | Spot::MoreNames(_) | Spot::MoreFields(_))
}

fn read_slot_word(alloc: Global, state: State, notes: List<Text>, word: &str) -> Result<State, Stop>
    ensures { Follows result (slot_word state notes word.now) }
{
    match state {
        State::Start => {
            if word == "interface" {
                Ok(State::Headed { notes })
            } else {
                stray(notes)
            }
        }
        State::Between { head } => match keyword_of(word) {
            Some(keyword) => Ok(State::Keyed {
                head,
                notes,
                keyword,
            }),
            None => stray((head, notes)),
        },
        State::Inside {
            head,
            member,
            levels,
            spot,
        } => match read_entry(alloc, spot, notes, word) {
            Ok(spot) => Ok(State::Inside {
                head,
                member,
                levels,
                spot,
            }),
            Err(stop) => {
                drop((head, member, levels));
                Err(stop)
            }
        },
        state => stray((state, notes)),
    }
}

// A word that begins an entry.
fn read_entry(alloc: Global, spot: Spot, notes: List<Text>, word: &str) -> Result<Spot, Stop>
    ensures { Finds result (entry_spot spot notes word.now) }
{
    match spot {
        Spot::First => match entry_name(alloc, word) {
            Ok(name) => Ok(Spot::Only(Named { notes, name })),
            Err(stop) => {
                drop(notes);
                Err(stop)
            }
        },
        Spot::MoreNames(names) => next_name(alloc, names, notes, word),
        Spot::MoreFields(fields) => next_field(alloc, fields, notes, word),
        spot => stray((spot, notes)),
    }
}

// Names of an enum, and one more.
fn next_name(alloc: Global, names: List<Named>, notes: List<Text>, word: &str) -> Result<Spot, Stop>
    ensures { Finds result (some_if (is_field_name word.now)
        (spot.Names (names ++ record { notes = notes; name = word.now } ∷ []))) }
{
    match entry_name(alloc, word) {
        Ok(name) => Ok(Spot::Names(with_name(names, Named { notes, name })?)),
        Err(stop) => {
            drop((names, notes));
            Err(stop)
        }
    }
}

// Fields, and the name of one more.
fn next_field(
    alloc: Global,
    fields: List<Field>,
    notes: List<Text>,
    word: &str,
) -> Result<Spot, Stop>
    ensures { Finds result (some_if (is_field_name word.now)
        (spot.Field (record { fields = fields; notes = notes; name = word.now; prefixes = [] }))) }
{
    match entry_name(alloc, word) {
        Ok(name) => Ok(Spot::Field(Level {
            fields,
            notes,
            name,
            prefixes: List::new(alloc),
        })),
        Err(stop) => {
            drop((fields, notes));
            Err(stop)
        }
    }
}

// The names with one more.
fn with_name(names: List<Named>, named: Named) -> Result<List<Named>, Memory>
    ensures { IfOk result (λ more. more ≡ names ++ named ∷ []) }
{
    let mut names = names;
    names.push(named)?;
    Ok(names)
}

// The name of an entry.
fn entry_name(alloc: Global, word: &str) -> Result<Text, Stop>
    ensures { Finds result (some_if (is_field_name word.now) word.now) }
{
    if is_field_name(word) {
        Ok(Text::of(alloc, word)?)
    } else {
        Err(Stop::Stray)
    }
}

fn read_close(alloc: Global, state: State, notes: List<Text>) -> Result<State, Stop>
    ensures { Follows result (slot_close state notes) }
{
    match state {
        State::Inside {
            head,
            member,
            levels,
            spot,
        } => {
            let takes_enum = takes_enum(&member.kind, &levels);
            match body_of(alloc, spot, notes, takes_enum) {
                Ok(body) => Ok(closed(alloc, head, member, levels, body)?),
                Err(stop) => {
                    drop((head, member, levels));
                    Err(stop)
                }
            }
        }
        state => stray((state, notes)),
    }
}

// Whether an enum may stand in the innermost bracket.
fn takes_enum(kind: &Kind, levels: &Stack<Level>) -> bool
    ensures { result ≡ takes_enum kind.now levels.now }
{
    match kind {
        Kind::Shape => true,
        _ => levels.len() > 0,
    }
}

// The body that ends here.
fn body_of(alloc: Global, spot: Spot, notes: List<Text>, takes_enum: bool) -> Result<Body, Stop>
    ensures { Finds result (body_of takes_enum spot notes) }
{
    match spot {
        Spot::First => Ok(Body::Struct {
            fields: List::new(alloc),
            ending: notes,
        }),
        Spot::Only(named) if takes_enum => match with_name(List::new(alloc), named) {
            Ok(names) => Ok(Body::Enum {
                names,
                ending: notes,
            }),
            Err(_) => {
                drop(notes);
                Err(Stop::Memory)
            }
        },
        Spot::Names(names) => Ok(Body::Enum {
            names,
            ending: notes,
        }),
        Spot::Fields(fields) => Ok(Body::Struct {
            fields,
            ending: notes,
        }),
        spot => stray((spot, notes)),
    }
}

// Behind the innermost bracket.
fn closed(
    alloc: Global,
    head: Head,
    member: Begun,
    mut levels: Stack<Level>,
    body: Body,
) -> Result<State, Memory>
    ensures { IfOk result (λ state. state ≡ closed head member levels body) }
{
    match levels.pop() {
        None => {
            drop(levels);
            finished(head, member, body)
        }
        Some(level) => match with_body(alloc, level, body) {
            Ok(fields) => Ok(State::Inside {
                head,
                member,
                levels,
                spot: Spot::Fields(fields),
            }),
            Err(fault) => {
                drop((head, member, levels));
                Err(fault)
            }
        },
    }
}

// The fields with one more, whose type ends with this body.
fn with_body(alloc: Global, level: Level, body: Body) -> Result<List<Field>, Memory>
    ensures { IfOk result (λ fields. fields ≡ with_core level (Inline body)) }
{
    match Box::new(alloc, body) {
        Ok(body) => with_core(level, Core::Inline(body)),
        Err(fault) => {
            drop(level);
            Err(fault)
        }
    }
}

// Behind the bracket of a member.
fn finished(head: Head, member: Begun, body: Body) -> Result<State, Memory>
    ensures { IfOk result (λ state. state ≡ finished head member.notes member.name member.kind body) }
{
    let Begun { notes, name, kind } = member;
    match kind {
        Kind::Shape => with_member(head, notes, name, Part::Shape(body)),
        Kind::Input => Ok(State::Middle {
            head,
            notes,
            name,
            input: body,
        }),
        Kind::Output(input) => with_member(
            head,
            notes,
            name,
            Part::Method {
                input,
                output: body,
            },
        ),
        Kind::Fault => with_member(head, notes, name, Part::Fault(body)),
    }
}

fn with_member(head: Head, notes: List<Text>, name: Text, part: Part) -> Result<State, Memory>
    ensures { IfOk result (λ state. state ≡ with_member head notes name part) }
{
    let mut head = head;
    match head.members.push(Member { notes, name, part }) {
        Ok(()) => Ok(State::Between { head }),
        Err(fault) => {
            drop(head);
            Err(fault)
        }
    }
}

// The fields with one more, whose type ends with this core.
fn with_core(level: Level, core: Core) -> Result<List<Field>, Memory>
    ensures { IfOk result (λ fields. fields ≡ with_core level core) }
{
    let Level {
        mut fields,
        notes,
        name,
        prefixes,
    } = level;
    fields.push(Field {
        notes,
        name,
        of: TypeRef { prefixes, core },
    })?;
    Ok(fields)
}

fn with_prefix(level: Level, prefix: Prefix) -> Result<Level, Memory>
    ensures { IfOk result (λ next. next ≡ with_prefix level prefix) }
{
    let mut level = level;
    match level.prefixes.push(prefix) {
        Ok(()) => Ok(level),
        Err(fault) => {
            drop(level);
            Err(fault)
        }
    }
}

// One more bracket, of at most so many.
fn opened(head: Head, member: Begun, levels: Stack<Level>, most: u64) -> Result<State, Stop>
    ensures { Follows result (opened most head member levels) }
{
    if levels.len() < most {
        Ok(State::Inside {
            head,
            member,
            levels,
            spot: Spot::First,
        })
    } else {
        drop((head, member, levels));
        Err(Stop::Beyond)
    }
}

// A word that is no slot.
fn read_word(alloc: Global, state: State, word: &str) -> Result<State, Stop>
    ensures { Follows result (word_next state word.now) }
{
    match state {
        State::Headed { notes } if is_interface_name(word) => Ok(headed(alloc, notes, word)?),
        State::Keyed {
            head,
            notes,
            keyword,
        } if is_member_name(word) => match begun(alloc, notes, word, kind_of(keyword)) {
            Ok(member) => Ok(State::Ready { head, member }),
            Err(_) => {
                drop(head);
                Err(Stop::Memory)
            }
        },
        State::Inside {
            head,
            member,
            levels,
            spot,
        } => match read_type_word(alloc, spot, word) {
            Ok(spot) => Ok(State::Inside {
                head,
                member,
                levels,
                spot,
            }),
            Err(stop) => {
                drop((head, member, levels));
                Err(stop)
            }
        },
        state => stray(state),
    }
}

// An interface of that name, before its members.
fn headed(alloc: Global, notes: List<Text>, name: &str) -> Result<State, Memory>
    ensures { IfOk result (λ state. state
        ≡ Between (record { notes = notes; name = name.now; members = [] })) }
{
    match Text::of(alloc, name) {
        Ok(name) => Ok(State::Between {
            head: Head {
                notes,
                name,
                members: List::new(alloc),
            },
        }),
        Err(fault) => {
            drop(notes);
            Err(fault)
        }
    }
}

// A member of that name, before its bracket.
fn begun(alloc: Global, notes: List<Text>, name: &str, kind: Kind) -> Result<Begun, Memory>
    ensures { IfOk result (λ member. member
        ≡ record { notes = notes; name = name.now; kind = kind }) }
{
    match Text::of(alloc, name) {
        Ok(name) => Ok(Begun { notes, name, kind }),
        Err(fault) => {
            drop((notes, kind));
            Err(fault)
        }
    }
}

fn kind_of(keyword: Keyword) -> Kind
    ensures { result ≡ kind_of keyword }
{
    match keyword {
        Keyword::Types => Kind::Shape,
        Keyword::Methods => Kind::Input,
        Keyword::Errors => Kind::Fault,
    }
}

// A word in a type.
fn read_type_word(alloc: Global, spot: Spot, word: &str) -> Result<Spot, Stop>
    ensures { Finds result (type_word spot word.now) }
{
    match spot {
        Spot::Prefixes(level) => match core_of(alloc, word) {
            Ok(Some(core)) => Ok(Spot::Fields(with_core(level, core)?)),
            Ok(None) => stray(level),
            Err(_) => {
                drop(level);
                Err(Stop::Memory)
            }
        },
        Spot::Square(level) if word == "string" => Ok(Spot::Map(level)),
        spot => stray(spot),
    }
}

// A mark that is no slot.
fn read_mark(alloc: Global, state: State, mark: Mark, most: u64) -> Result<State, Stop>
    ensures { Follows result (sign_next most state mark) }
{
    match state {
        State::Ready { head, member } if is_open(mark) => {
            opened(head, member, Stack::new(alloc), most)
        }
        State::Middle {
            head,
            notes,
            name,
            input,
        } if is_arrow(mark) => Ok(State::Ready {
            head,
            member: Begun {
                notes,
                name,
                kind: Kind::Output(input),
            },
        }),
        State::Inside {
            head,
            member,
            levels,
            spot,
        } => read_mark_inside(alloc, head, member, levels, spot, mark, most),
        state => stray(state),
    }
}

// A mark within brackets that is no slot.
fn read_mark_inside(
    alloc: Global,
    head: Head,
    member: Begun,
    levels: Stack<Level>,
    spot: Spot,
    mark: Mark,
    most: u64,
) -> Result<State, Stop>
    ensures { Follows result (sign_next most (Inside head member levels spot) mark) }
{
    if is_open(mark) {
        return open_inner(head, member, levels, spot, most);
    }
    let takes_enum = takes_enum(&member.kind, &levels);
    match read_inner_mark(alloc, spot, mark, takes_enum) {
        Ok(spot) => Ok(State::Inside {
            head,
            member,
            levels,
            spot,
        }),
        Err(stop) => {
            drop((head, member, levels));
            Err(stop)
        }
    }
}

fn is_open(mark: Mark) -> bool
    ensures { result ≡ is_open mark }
{
    matches!(mark, Mark::Open)
}

fn is_arrow(mark: Mark) -> bool
    ensures { result ≡ is_arrow mark }
{
    matches!(mark, Mark::Arrow)
}

// A bracket within brackets.
fn open_inner(
    head: Head,
    member: Begun,
    levels: Stack<Level>,
    spot: Spot,
    most: u64,
) -> Result<State, Stop>
    ensures { Follows result (open_inner most head member levels spot) }
{
    match spot {
        Spot::Prefixes(level) => match with_level(levels, level) {
            Ok(levels) => opened(head, member, levels, most),
            Err(_) => {
                drop((head, member));
                Err(Stop::Memory)
            }
        },
        spot => stray((head, member, levels, spot)),
    }
}

fn with_level(levels: Stack<Level>, level: Level) -> Result<Stack<Level>, Memory>
    ensures { IfOk result (λ more. more ≡ level ∷ levels) }
{
    let mut levels = levels;
    levels.push(level)?;
    Ok(levels)
}

// A mark within brackets that is no bracket.
fn read_inner_mark(alloc: Global, spot: Spot, mark: Mark, takes_enum: bool) -> Result<Spot, Stop>
    ensures { Finds result (mark_spot takes_enum spot mark) }
{
    match (spot, mark) {
        (Spot::Only(Named { notes, name }), Mark::Colon) => Ok(Spot::Prefixes(Level {
            fields: List::new(alloc),
            notes,
            name,
            prefixes: List::new(alloc),
        })),
        (Spot::Only(named), Mark::Comma) if takes_enum => {
            Ok(Spot::MoreNames(with_name(List::new(alloc), named)?))
        }
        (Spot::Names(names), Mark::Comma) => Ok(Spot::MoreNames(names)),
        (Spot::Fields(fields), Mark::Comma) => Ok(Spot::MoreFields(fields)),
        (Spot::Field(level), Mark::Colon) => Ok(Spot::Prefixes(level)),
        (Spot::Prefixes(level), Mark::Question) => with_maybe(level),
        (Spot::Prefixes(level), Mark::LeftSquare) => Ok(Spot::Square(level)),
        (Spot::Square(level), Mark::RightSquare) => {
            Ok(Spot::Prefixes(with_prefix(level, Prefix::Array)?))
        }
        (Spot::Map(level), Mark::RightSquare) => {
            Ok(Spot::Prefixes(with_prefix(level, Prefix::Map)?))
        }
        (spot, _) => stray(spot),
    }
}

// No `?` stands directly before another.
fn with_maybe(level: Level) -> Result<Spot, Stop>
    ensures { Finds result
        (some_if (not (ends_with_maybe level.prefixes)) (spot.Prefixes (with_prefix level Maybe))) }
{
    if ends_with_maybe(level.prefixes.as_slice()) {
        return stray(level);
    }
    Ok(Spot::Prefixes(with_prefix(level, Prefix::Maybe)?))
}

// Whether the last prefix is `?`.
fn ends_with_maybe(prefixes: &[Prefix]) -> bool
    ensures { result ≡ ends_with_maybe prefixes.now }
{
    match prefixes.last() {
        Some(prefix) => is_maybe(*prefix),
        None => false,
    }
}

fn is_maybe(prefix: Prefix) -> bool
    ensures { result ≡ is_maybe prefix }
{
    matches!(prefix, Prefix::Maybe)
}
