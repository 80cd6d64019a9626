// The forms of references, expressions and conditions by the names of their members.
ghost use Rattle.std.specs.Prelude.{◌≡◌};
ghost use Rattle.expression_draft.specs.Expressions.{ref_named, expr_named, cond_named};

/// A form of reference.
#[derive(Debug, Clone, Copy, PartialEq, Eq)]
pub enum RefForm {
    /// `param`
    Param,
    /// `register`
    Register,
    /// `item`
    Item,
}

/// A form of expression.
#[derive(Debug, Clone, Copy, PartialEq, Eq)]
pub enum ExprForm {
    /// A reference.
    From(RefForm),
    /// `const`
    Const,
    /// `struct`
    Struct,
    /// `list`
    Items,
    /// `sum`
    Sum,
    /// `length`
    Length,
    /// `at`
    At,
}

/// A form of condition.
#[derive(Debug, Clone, Copy, PartialEq, Eq)]
pub enum CondForm {
    /// `equal`
    Equal,
    /// `less`
    Less,
    /// `present`
    Present,
    /// `has`
    Has,
    /// `not`
    Not,
}

/// The reference that a member of this name makes.
pub fn ref_named(name: &str) -> Option<RefForm>
    ensures { result ≡ ref_named name.now }
{
    match name {
        "param" => Some(RefForm::Param),
        "register" => Some(RefForm::Register),
        "item" => Some(RefForm::Item),
        _ => None,
    }
}

/// The expression that a member of this name makes.
pub fn expr_named(name: &str) -> Option<ExprForm>
    ensures { result ≡ expr_named name.now }
{
    match name {
        "const" => Some(ExprForm::Const),
        "struct" => Some(ExprForm::Struct),
        "list" => Some(ExprForm::Items),
        "sum" => Some(ExprForm::Sum),
        "length" => Some(ExprForm::Length),
        "at" => Some(ExprForm::At),
        _ => match ref_named(name) {
            Some(form) => Some(ExprForm::From(form)),
            None => None,
        },
    }
}

/// The condition that a member of this name makes.
pub fn cond_named(name: &str) -> Option<CondForm>
    ensures { result ≡ cond_named name.now }
{
    match name {
        "equal" => Some(CondForm::Equal),
        "less" => Some(CondForm::Less),
        "present" => Some(CondForm::Present),
        "has" => Some(CondForm::Has),
        "not" => Some(CondForm::Not),
        _ => None,
    }
}
