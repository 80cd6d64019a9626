// Which replies read.
ghost use Rattle.std.specs.Prelude.{IsTrue};
ghost use Rattle.call_form.specs.CallOf.{IsObject};
ghost use Rattle.link_exchange.specs.Asked.{AllRead, Reading, TellsUnread};

use call_form::Reply;
use link_port::{Memory, Text};
use std::alloc::Global;

/// Why a reply does not read.
#[derive(Debug, Drop)]
pub enum Misread {
    /// Its first field that does not read has this name.
    Field(Text),
    /// Memory was asked for and not granted.
    Memory,
}

impl From<Memory> for Misread {
    ghost use Rattle.std.specs.Prelude.{◌≡◌};
    ghost use Rattle.link_exchange.specs.declared.screens.Misread.TheVariants as misread;

    ghost from_gives = { λ _ made. made ≡ misread.Memory };

    fn from(_memory: Memory) -> Misread {
        Misread::Memory
    }
}

/// What the replies of a call are read by, before they are passed on.
pub trait Screen {
    /// The first field of a reply's parameters that does not read, if there is one.
    ghost unread: { Self → Reading };

    /// Whether all replies read, so that no reply needs to be read by the screen.
    fn reads_all(&self) -> bool
        ensures { IsTrue result → AllRead (unread self.now) };

    /// Reads the parameters, an object, of a reply that is no error.
    fn check(&self, alloc: Global, reply: &Reply) -> Result<(), Misread>
        requires { IsObject reply.now.parameters }
        ensures { TellsUnread result (unread self.now reply.now) };
}

/// All replies read.
#[derive(Debug, Clone, Copy)]
pub struct Unscreened;

impl Screen for Unscreened {
    ghost use Rattle.link_exchange.specs.Asked.{any_reads};

    ghost unread = { λ _. any_reads };

    fn reads_all(&self) -> bool {
        true
    }

    fn check(&self, _alloc: Global, _reply: &Reply) -> Result<(), Misread> {
        Ok(())
    }
}
