// The members of a reply, found in its text without a tree.
ghost use Rattle.serde_json.specs.Data.{Data, Members, put};
ghost use Rattle.caller_form.specs.Kinds.{IsOfKind};
ghost use Rattle.caller_form.specs.HeadOf.{AreFound, Ends, Finds, TellsMembers};

use crate::faults::ReplyFault;
use crate::kinds::{Kind, pass_token, pass_value};
use json::{Invalid, Reader, Scratch, Token};

// How deep the message may nest.
pub const MAX_DEPTH: usize = 127;

// The kinds of the members that a reply has. One that is absent is told as null.
#[derive(Clone, Copy, Drop)]
pub struct Found<'a> {
    pub continues: Kind<'a>,
    pub error: Kind<'a>,
    pub parameters: Kind<'a>,
}

impl<'a> Found<'a> {
    // With one member more, which takes the place of one of its name.
    fn with(self, name: &str, kind: Kind<'a>) -> Found<'a>
        ensures { (ms : Members) (tree : Data) → AreFound self.entry ms → IsOfKind kind.entry tree
            → AreFound result (put name.now tree ms) }
    {
        let mut found = self;
        if name == "continues" {
            found.continues = kind;
        } else if name == "error" {
            found.error = kind;
        } else if name == "parameters" {
            found.parameters = kind;
        }
        found
    }
}

// The members of an object that was opened.
fn find_members<'a>(reader: &mut Reader<'a>, depth: usize) -> Result<Found<'a>, Invalid>
    ensures { Finds depth reader.old result reader.new }
{
    let mut found = Found {
        continues: Kind::Null,
        error: Kind::Null,
        parameters: Kind::Null,
    };
    'members: while let Some(name) = reader.next_key()? {
        let kind = pass_value(reader, depth)?;
        found = found.with(name, kind);
    }
    Ok(found)
}

// The members of the object that a text is.
pub fn members_of<'a>(text: &'a str, scratch: &'a mut Scratch) -> Result<Found<'a>, ReplyFault>
    ensures { TellsMembers text.now result }
{
    let Ok(mut reader) = Reader::new(text, scratch) else {
        return Err(ReplyFault::Memory);
    };
    let token = reader.next().ok_or(ReplyFault::NotJson)?;
    if let Token::BeginObject = token {
        let found = find_members(&mut reader, MAX_DEPTH - 1)?;
        ends(&mut reader)?;
        Ok(found)
    } else {
        pass_token(&mut reader, token, MAX_DEPTH)?;
        ends(&mut reader)?;
        Err(ReplyFault::NotObject)
    }
}

fn ends(reader: &mut Reader<'_>) -> Result<(), Invalid>
    ensures { Ends reader.old result }
{
    match reader.next() {
        None => Ok(()),
        Some(_) => Err(Invalid),
    }
}
