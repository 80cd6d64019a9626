// A sheet by names, before its types are looked at.
use call_form::Raw;
use expression_draft::{CondDraft, ExprDraft, RefDraft};
use link_port::{List, Text, Value};

/// A sheet as its JSON text has it: types, registers, methods and errors are names still.
#[derive(Drop)]
pub struct SheetDraft {
    /// Who made the service.
    pub info: Info,
    /// The texts of the definitions, in order.
    pub interfaces: List<Text>,
    /// The registers in order. Their names are field names, and each stands once.
    pub registers: List<RegisterDraft>,
    /// The rules in the byte order of their names, each name once.
    pub rules: List<RuleDraft>,
}

/// Who made the service (varlink.org, "Service", the reply to `GetInfo`).
#[derive(Drop)]
pub struct Info {
    /// The vendor.
    pub vendor: Text,
    /// The product.
    pub product: Text,
    /// The version.
    pub version: Text,
    /// Where more is told.
    pub url: Text,
}

/// A register.
#[derive(Drop)]
pub struct RegisterDraft {
    /// Its name.
    pub name: Text,
    /// The name of the interface whose types its type may name.
    pub scope: Text,
    /// The text of its type.
    pub of: Text,
    /// The JSON of its first value.
    pub initial: Value,
}

/// What is done for the calls of one method.
#[derive(Drop)]
pub struct RuleDraft {
    /// The qualified name of the method.
    pub name: Text,
    /// What stands before its last `.`.
    pub interface: Text,
    /// What stands behind its last `.`.
    pub method: Text,
    /// The branches in order, at least one. The last has no condition, and each other has one.
    pub branches: List<BranchDraft>,
}

/// What is done where a condition holds.
#[derive(Drop)]
pub struct BranchDraft {
    /// The condition; without one the branch is taken always.
    pub when: Option<CondDraft>,
    /// The guards in order.
    pub guards: List<GuardDraft>,
    /// The steps in order.
    pub steps: List<ActionDraft>,
    /// The outcome.
    pub outcome: EndingDraft,
}

/// A guard: where its condition doesn't hold, the call is refused.
#[derive(Drop)]
pub struct GuardDraft {
    /// What has to hold.
    pub need: CondDraft,
    /// The name of the error, in the method's interface.
    pub error: Text,
    /// The error's parameters.
    pub with: ExprDraft,
}

/// A step: one register changes.
#[derive(Drop)]
pub enum ActionDraft {
    /// The register of this name becomes the value.
    Set(Text, ExprDraft),
    /// The value is added at the end of this register.
    Push(Text, ExprDraft),
    /// In this register the key, the first expression, gets the value, the second one.
    Put(Text, ExprDraft, ExprDraft),
    /// From this register the key is taken.
    Drop(Text, ExprDraft),
}

/// What a call is answered with.
#[derive(Drop)]
pub enum EndingDraft {
    /// One reply.
    Reply(ExprDraft),
    /// A reply for each item, and a last one.
    Stream {
        /// The array.
        over: RefDraft,
        /// The reply for an item.
        each: ExprDraft,
        /// The last reply.
        last: ExprDraft,
    },
    /// One reply, and then the connection is for other bytes.
    Upgrade {
        /// What is done with the bytes.
        raw: Raw,
        /// The reply.
        reply: ExprDraft,
    },
}
