//! Sheets of a service, read from JSON (RFC 8259) by names: the form of a sheet, and where a text leaves
//! it first.
#![tactic(auto)]

mod branches;
mod drafts;
mod faults;
mod names;
mod outcomes;
mod outlines;
mod places;
mod registers;
mod rules;
mod sheets;
mod steps;

pub use drafts::{
    ActionDraft, BranchDraft, EndingDraft, GuardDraft, Info, RegisterDraft, RuleDraft, SheetDraft,
};
pub use expression_draft::{CondDraft, ExprDraft, RefDraft};
pub use faults::DraftFault;
pub use places::{Place, Spot};
pub use sheets::read;

/// The greatest length of a sheet's text, in bytes, that is read from a file.
pub const SHEET_LIMIT: u64 = 16_777_216;
