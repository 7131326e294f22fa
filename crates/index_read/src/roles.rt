//! What each token is in a statement: the table of the tokens that may follow.

ghost use Rattle.std.specs.Prelude.{◌≡◌};
ghost use Rattle.index_read.specs.Roles.{word_role, number_role, open_role, close_role, comma_role, equals_role, minus_role, role_of};

use crate::lexer::Token;
use dt_model::Name;

/// What a statement expects at a token.
#[derive(Clone, Copy, Debug, PartialEq, Eq)]
pub enum Place {
    /// The left side's name.
    Target,
    /// A parenthesis or `=`, behind the left side's name.
    AfterTarget,
    /// A variable of the left side.
    LeftVariable,
    /// A comma or the parenthesis behind a variable of the left side.
    LeftNext,
    /// `=`
    Equals,
    /// A term, or the minus before the first one.
    First,
    /// A factor.
    Operand,
    /// The parenthesis behind a tensor's name.
    List,
    /// A variable of an access.
    Variable,
    /// A comma or the parenthesis behind a variable of an access.
    Next,
    /// An operator, a closing parenthesis, or the end.
    After,
}

/// What a token is in a statement.
#[derive(Debug, Drop, PartialEq, Eq)]
pub enum Role {
    /// The left side's name.
    Target(Name),
    /// A variable of the left side.
    LeftVariable(Name),
    /// The name of an access.
    Tensor(Name),
    /// A variable of an access.
    Variable(Name),
    /// The parenthesis behind the last variable of an access.
    EndList,
    /// A number.
    Literal(Option<u64>),
    /// A parenthesis that opens an expression.
    Group,
    /// A parenthesis that closes an expression.
    EndGroup,
    /// `+`
    Plus,
    /// `-` between two terms.
    Minus,
    /// `*`
    Times,
    /// `-` before the first term.
    Negate,
    /// A comma, `=`, or another parenthesis of a list.
    Mark,
}

/// The role of a name.
fn word_role(place: Place, name: Name) -> Option<(Role, Place)>
    ensures value { result ≡ word_role place name }
{
    match place {
        Place::Target => Some((Role::Target(name), Place::AfterTarget)),
        Place::LeftVariable => Some((Role::LeftVariable(name), Place::LeftNext)),
        Place::First => Some((Role::Tensor(name), Place::List)),
        Place::Operand => Some((Role::Tensor(name), Place::List)),
        Place::Variable => Some((Role::Variable(name), Place::Next)),
        _ => None,
    }
}

/// The role of a number.
fn number_role(place: Place, value: Option<u64>) -> Option<(Role, Place)>
    ensures value { result ≡ number_role place value }
{
    match place {
        Place::First => Some((Role::Literal(value), Place::After)),
        Place::Operand => Some((Role::Literal(value), Place::After)),
        _ => None,
    }
}

/// The role of `(`.
fn open_role(place: Place) -> Option<(Role, Place)>
    ensures value { result ≡ open_role place }
{
    match place {
        Place::AfterTarget => Some((Role::Mark, Place::LeftVariable)),
        Place::List => Some((Role::Mark, Place::Variable)),
        Place::First => Some((Role::Group, Place::First)),
        Place::Operand => Some((Role::Group, Place::First)),
        _ => None,
    }
}

/// The role of `)`, where so many parenthesised expressions are open.
fn close_role(place: Place, depth: usize) -> Option<(Role, Place)>
    ensures value { result ≡ close_role place depth }
{
    match place {
        Place::LeftNext => Some((Role::Mark, Place::Equals)),
        Place::Next => Some((Role::EndList, Place::After)),
        Place::After => {
            if depth > 0 {
                Some((Role::EndGroup, Place::After))
            } else {
                None
            }
        }
        _ => None,
    }
}

/// The role of a comma.
fn comma_role(place: Place) -> Option<(Role, Place)>
    ensures value { result ≡ comma_role place }
{
    match place {
        Place::LeftNext => Some((Role::Mark, Place::LeftVariable)),
        Place::Next => Some((Role::Mark, Place::Variable)),
        _ => None,
    }
}

/// The role of `=`.
fn equals_role(place: Place) -> Option<(Role, Place)>
    ensures value { result ≡ equals_role place }
{
    match place {
        Place::AfterTarget => Some((Role::Mark, Place::First)),
        Place::Equals => Some((Role::Mark, Place::First)),
        _ => None,
    }
}

/// The role of `-`.
fn minus_role(place: Place) -> Option<(Role, Place)>
    ensures value { result ≡ minus_role place }
{
    match place {
        Place::First => Some((Role::Negate, Place::Operand)),
        Place::After => Some((Role::Minus, Place::Operand)),
        _ => None,
    }
}

/// What a token is, where so many parenthesised expressions are open, and what is expected behind it.
pub(crate) fn role_of(place: Place, token: Token, depth: usize) -> Option<(Role, Place)>
    ensures value { result ≡ role_of place token depth }
{
    match token {
        Token::Word(name) => word_role(place, name),
        Token::Number(value) => number_role(place, value),
        Token::Open => open_role(place),
        Token::Close => close_role(place, depth),
        Token::Comma => comma_role(place),
        Token::Equals => equals_role(place),
        Token::Minus => minus_role(place),
        Token::Plus => match place {
            Place::After => Some((Role::Plus, Place::Operand)),
            _ => None,
        },
        Token::Times => match place {
            Place::After => Some((Role::Times, Place::Operand)),
            _ => None,
        },
        Token::Stray => None,
    }
}
