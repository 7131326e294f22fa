//! What each token is in a schema file: the table of the tokens that may follow.

ghost use Rattle.std.specs.Prelude.{◌≡◌};
ghost use Rattle.schema_read.specs.Roles.{name_role, number_role, open_role, close_role, role_of, schema_role, node_role, run_role, root_role, pre_role, post_role, woven_role, points_role};

use crate::lexer::Token;
use dt_model::Name;

/// What a schema file expects at a token.
#[derive(Clone, Copy, Debug, PartialEq, Eq)]
pub enum Place {
    /// `schema`, or the end.
    Outside,
    /// The name of a schema.
    SchemaName,
    /// The brace behind a schema's name.
    SchemaOpen,
    /// `node`: a schema has at least one kind.
    FirstNode,
    /// `node` or `root`.
    NextNode,
    /// The name of a kind.
    KindName,
    /// The brace behind a kind's name.
    KindOpen,
    /// `run`
    Run,
    /// The lower bound of a run.
    Low,
    /// `..`
    Points,
    /// The upper bound of a run.
    High,
    /// `post`, `pre` or `woven`.
    Links,
    /// The name behind `post`.
    Post,
    /// The name behind `pre`.
    Pre,
    /// `post`, behind the name of `pre`.
    AfterPre,
    /// The name behind that `post`.
    EndsPost,
    /// The brace that ends a kind.
    KindClose,
    /// The name behind `root`.
    RootName,
    /// The brace that ends a schema.
    SchemaClose,
}

/// What a token is in a schema file.
#[derive(Debug, Drop, PartialEq, Eq)]
pub enum Role {
    /// The name of a schema.
    SchemaName(Name),
    /// The name of a kind.
    KindName(Name),
    /// The lower bound of a run.
    Low(u32),
    /// The upper bound of a run.
    High(u32),
    /// The name behind the only link's `post`.
    Post(Name),
    /// The name behind `pre`.
    Pre(Name),
    /// The name behind the second link's `post`.
    EndsPost(Name),
    /// `woven`
    Woven,
    /// The name behind `root`.
    Root(Name),
    /// A brace, `..`, or a word before a name or a number.
    Mark,
}

/// The role of `schema`.
fn schema_role(place: Place) -> Option<(Role, Place)>
    ensures value { result ≡ schema_role place }
{
    match place {
        Place::Outside => Some((Role::Mark, Place::SchemaName)),
        _ => None,
    }
}

/// The role of `node`.
fn node_role(place: Place) -> Option<(Role, Place)>
    ensures value { result ≡ node_role place }
{
    match place {
        Place::FirstNode | Place::NextNode => Some((Role::Mark, Place::KindName)),
        _ => None,
    }
}

/// The role of `run`.
fn run_role(place: Place) -> Option<(Role, Place)>
    ensures value { result ≡ run_role place }
{
    match place {
        Place::Run => Some((Role::Mark, Place::Low)),
        _ => None,
    }
}

/// The role of `root`.
fn root_role(place: Place) -> Option<(Role, Place)>
    ensures value { result ≡ root_role place }
{
    match place {
        Place::NextNode => Some((Role::Mark, Place::RootName)),
        _ => None,
    }
}

/// The role of `pre`.
fn pre_role(place: Place) -> Option<(Role, Place)>
    ensures value { result ≡ pre_role place }
{
    match place {
        Place::Links => Some((Role::Mark, Place::Pre)),
        _ => None,
    }
}

/// The role of `post`.
fn post_role(place: Place) -> Option<(Role, Place)>
    ensures value { result ≡ post_role place }
{
    match place {
        Place::Links => Some((Role::Mark, Place::Post)),
        Place::AfterPre => Some((Role::Mark, Place::EndsPost)),
        _ => None,
    }
}

/// The role of `woven`.
fn woven_role(place: Place) -> Option<(Role, Place)>
    ensures value { result ≡ woven_role place }
{
    match place {
        Place::Links => Some((Role::Woven, Place::KindClose)),
        _ => None,
    }
}

/// The role of a name.
fn name_role(place: Place, name: Name) -> Option<(Role, Place)>
    ensures value { result ≡ name_role place name }
{
    match place {
        Place::SchemaName => Some((Role::SchemaName(name), Place::SchemaOpen)),
        Place::KindName => Some((Role::KindName(name), Place::KindOpen)),
        Place::Post => Some((Role::Post(name), Place::KindClose)),
        Place::Pre => Some((Role::Pre(name), Place::AfterPre)),
        Place::EndsPost => Some((Role::EndsPost(name), Place::KindClose)),
        Place::RootName => Some((Role::Root(name), Place::SchemaClose)),
        _ => None,
    }
}

/// The role of a number.
fn number_role(place: Place, number: u32) -> Option<(Role, Place)>
    ensures value { result ≡ number_role place number }
{
    match place {
        Place::Low => Some((Role::Low(number), Place::Points)),
        Place::High => Some((Role::High(number), Place::Links)),
        _ => None,
    }
}

/// The role of `{`.
fn open_role(place: Place) -> Option<(Role, Place)>
    ensures value { result ≡ open_role place }
{
    match place {
        Place::SchemaOpen => Some((Role::Mark, Place::FirstNode)),
        Place::KindOpen => Some((Role::Mark, Place::Run)),
        _ => None,
    }
}

/// The role of `}`.
fn close_role(place: Place) -> Option<(Role, Place)>
    ensures value { result ≡ close_role place }
{
    match place {
        Place::KindClose => Some((Role::Mark, Place::NextNode)),
        Place::SchemaClose => Some((Role::Mark, Place::Outside)),
        _ => None,
    }
}

/// The role of `..`.
fn points_role(place: Place) -> Option<(Role, Place)>
    ensures value { result ≡ points_role place }
{
    match place {
        Place::Points => Some((Role::Mark, Place::High)),
        _ => None,
    }
}

/// What a token is, and what is expected behind it.
pub(crate) fn role_of(place: Place, token: Token) -> Option<(Role, Place)>
    ensures value { result ≡ role_of place token }
{
    match token {
        Token::Schema => schema_role(place),
        Token::Node => node_role(place),
        Token::Run => run_role(place),
        Token::Root => root_role(place),
        Token::Pre => pre_role(place),
        Token::Post => post_role(place),
        Token::Woven => woven_role(place),
        Token::Name(name) => name_role(place, name),
        Token::Number(number) => number_role(place, number),
        Token::Open => open_role(place),
        Token::Close => close_role(place),
        Token::Points => points_role(place),
        Token::Stray => None,
    }
}
