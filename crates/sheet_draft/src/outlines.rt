// The members of a sheet.
use crate::drafts::Info;
use expression_draft::{Items, Members};

/// A version of the form of sheets.
#[derive(Debug, Clone, Copy, PartialEq, Eq)]
pub enum Version {
    /// A rule is a branch.
    One,
    /// A rule is an array of branches.
    Two,
}

/// The members of a sheet.
#[derive(Drop)]
pub struct Outline {
    /// Who made the service.
    pub info: Info,
    /// `sheet`
    pub sheet: Version,
    /// The definitions, the registers and the rules.
    pub contents: Contents,
}

/// The definitions, the registers and the rules of a sheet.
#[derive(Drop)]
pub struct Contents {
    /// `interfaces`
    pub interfaces: Items,
    /// `registers`
    pub registers: Items,
    /// `rules`
    pub rules: Members,
}
