//! Types, by recursive descent.
//!
//! A rule is a method of the parser of the types one level below, so that each is proved by itself; [`read_type`] alone
//! goes down a level.

ghost use Rattle.kt_grammar.specs.Readers as readers;
ghost use Rattle.kt_grammar.specs.Readers.{type_parser};
ghost use Rattle.kt_grammar_parsers.specs.Parsers.{some_levels};
ghost use Rattle.kt_tree.specs.Tokens.{is_sign};
ghost use Rattle.kt_tree.specs.declared.tokens.Sign.TheVariants as sign;
ghost use Rattle.kt_tree.specs.Types.{maybe_type, type_tree};
ghost use Rattle.kt_parser_steps.specs.Steps.{ReadsAs, Tries};
ghost use Rattle.kt_parser_types.specs.Below.{ReadsBelow, some_type, suspend_ahead, only_one, behind_name, named_or_nullable};
ghost use Rattle.std.specs.Prelude.{◌≡◌, map};

use kt_base::Name;
use kt_parser_steps::{
    ParseError, Tokens, comma_list, expect, expect_identifier, maybe_comma_list, name_of,
    sign_ahead,
};
use kt_tree::{Sign, SoftKeyword, TypeReference};
use kt_tree_nodes::types::{function, named, nullable, parenthesized};
use sqlite_items::Items;
use std::alloc::Global;

/// The parser of the types that a type holds, of at most `room` levels.
#[derive(Clone, Copy)]
pub struct TypesBelow<F> {
    alloc: Global,
    room: u32,
    read: F,
}

impl<F: Fn(Global, u32, &mut Tokens<'_>) -> Result<TypeReference, ParseError>> TypesBelow<F> {
    /// A type of at most `room` levels.
    fn inner_type(&self, tokens: &mut Tokens<'_>) -> Result<TypeReference, ParseError>
        requires { ReadsBelow self.now.room (F.pre self.now.read) (F.post self.now.read) }
        ensures { ReadsAs type_tree (type_parser self.now.room tokens.old) result tokens.new }
    {
        (self.read)(self.alloc, self.room, tokens)
    }

    fn several(
        &self,
        close: Sign,
        tokens: &mut Tokens<'_>,
    ) -> Result<Items<TypeReference>, ParseError>
        requires { ReadsBelow self.now.room (F.pre self.now.read) (F.post self.now.read) }
        ensures { ReadsAs (map type_tree) (readers.commas (is_sign close) (type_parser self.now.room) tokens.old)
            result tokens.new }
    {
        comma_list(
            self.alloc,
            tokens,
            close,
            &|tokens: &mut Tokens<'_>| self.inner_type(tokens),
        )
    }

    fn maybe_several(
        &self,
        close: Sign,
        tokens: &mut Tokens<'_>,
    ) -> Result<Items<TypeReference>, ParseError>
        requires { ReadsBelow self.now.room (F.pre self.now.read) (F.post self.now.read) }
        ensures { ReadsAs (map type_tree) (readers.maybe_commas (is_sign close) (type_parser self.now.room) tokens.old)
            result tokens.new }
    {
        maybe_comma_list(
            self.alloc,
            tokens,
            close,
            &|tokens: &mut Tokens<'_>| self.inner_type(tokens),
        )
    }

    /// `'<' type (',' type)* '>'`
    fn arguments(&self, tokens: &mut Tokens<'_>) -> Result<Items<TypeReference>, ParseError>
        requires { ReadsBelow self.now.room (F.pre self.now.read) (F.post self.now.read) }
        ensures { ReadsAs (map type_tree) (readers.type_arguments (type_parser self.now.room) tokens.old)
            result tokens.new }
    {
        expect(tokens, Sign::Less)?;
        self.several(Sign::Greater, tokens)
    }

    /// The arguments behind a type's name, where what follows reads as arguments.
    fn behind_name(&self, name: Name, tokens: &mut Tokens<'_>) -> Result<TypeReference, ParseError>
        requires { ReadsBelow self.now.room (F.pre self.now.read) (F.post self.now.read) }
        ensures { ReadsAs type_tree
            (behind_name (some_levels self.now.room) (type_parser self.now.room) name tokens.old) result tokens.new }
    {
        if self.room == 0 {
            return Ok(named(name, Items::new(self.alloc)));
        }
        let place = tokens.rest();
        match self.arguments(tokens) {
            Ok(arguments) => Ok(named(name, arguments)),
            Err(ParseError::Refused) => {
                tokens.go_to(place);
                Ok(named(name, Items::new(self.alloc)))
            }
            Err(ParseError::NoMemory) => Err(ParseError::NoMemory),
        }
    }

    /// `ID targs?`
    fn named(&self, tokens: &mut Tokens<'_>) -> Result<TypeReference, ParseError>
        requires { ReadsBelow self.now.room (F.pre self.now.read) (F.post self.now.read) }
        ensures { ReadsAs type_tree
            (readers.named_type (some_levels self.now.room) (type_parser self.now.room) tokens.old) result tokens.new }
    {
        let token = expect_identifier(tokens)?;
        let name = name_of(self.alloc, token)?;
        self.behind_name(name, tokens)
    }

    /// `ID targs? '?'?`
    fn named_or_nullable(&self, tokens: &mut Tokens<'_>) -> Result<TypeReference, ParseError>
        requires { ReadsBelow self.now.room (F.pre self.now.read) (F.post self.now.read) }
        ensures { ReadsAs type_tree
            (named_or_nullable (some_levels self.now.room) (type_parser self.now.room) tokens.old) result tokens.new }
    {
        let inner = self.named(tokens)?;
        maybe_nullable(self.alloc, inner, tokens)
    }

    /// The result of a function type.
    fn outcome(
        &self,
        suspends: bool,
        parameters: Items<TypeReference>,
        tokens: &mut Tokens<'_>,
    ) -> Result<TypeReference, ParseError>
        requires { ReadsBelow self.now.room (F.pre self.now.read) (F.post self.now.read) }
        ensures { ReadsAs type_tree
            (readers.result_type suspends (type_parser self.now.room) (map type_tree parameters) tokens.old)
            result tokens.new }
    {
        let outcome = self.inner_type(tokens)?;
        Ok(function(self.alloc, suspends, parameters, outcome)?)
    }

    /// `'(' types ')' '->' type`, behind `suspend`
    fn suspending(&self, tokens: &mut Tokens<'_>) -> Result<TypeReference, ParseError>
        requires { ReadsBelow self.now.room (F.pre self.now.read) (F.post self.now.read) }
        ensures { ReadsAs type_tree (readers.suspend_type (type_parser self.now.room) tokens.old) result tokens.new }
    {
        expect(tokens, Sign::OpenParenthesis)?;
        let parameters = self.maybe_several(Sign::CloseParenthesis, tokens)?;
        expect(tokens, Sign::Arrow)?;
        self.outcome(true, parameters, tokens)
    }

    /// Behind types in parentheses: a function type, or one type in parentheses.
    #[tactic(auto, using(kt_parser_steps::proofs::Ways::reads_from, crate::proofs::TypeSteps::types_arrow, crate::proofs::TypeSteps::types_one, crate::proofs::TypeSteps::types_none))]
    fn behind_types(
        &self,
        types: Items<TypeReference>,
        tokens: &mut Tokens<'_>,
    ) -> Result<TypeReference, ParseError>
        requires { ReadsBelow self.now.room (F.pre self.now.read) (F.post self.now.read) }
        ensures { ReadsAs type_tree (readers.behind_types (type_parser self.now.room) (map type_tree types) tokens.old)
            result tokens.new }
    {
        match tokens.take_sign(Sign::Arrow) {
            Some(_) => self.outcome(false, types, tokens),
            None => match only(types) {
                Some(inner) => {
                    let inner = parenthesized(self.alloc, inner)?;
                    maybe_nullable(self.alloc, inner, tokens)
                }
                None => Err(ParseError::Refused),
            },
        }
    }

    /// Behind `(`: a function type, or a type in parentheses.
    fn behind_parenthesis(&self, tokens: &mut Tokens<'_>) -> Result<TypeReference, ParseError>
        requires { ReadsBelow self.now.room (F.pre self.now.read) (F.post self.now.read) }
        ensures { ReadsAs type_tree (readers.behind_parenthesis (type_parser self.now.room) tokens.old)
            result tokens.new }
    {
        let types = self.maybe_several(Sign::CloseParenthesis, tokens)?;
        self.behind_types(types, tokens)
    }

    fn whole(&self, tokens: &mut Tokens<'_>) -> Result<TypeReference, ParseError>
        requires { ReadsBelow self.now.room (F.pre self.now.read) (F.post self.now.read) }
        ensures { ReadsAs type_tree
            (readers.type_over (some_levels self.now.room) (type_parser self.now.room) tokens.old) result tokens.new }
    {
        if self.room == 0 {
            return self.named_or_nullable(tokens);
        }
        if suspends(tokens) {
            return self.suspending(tokens);
        }
        match tokens.take_sign(Sign::OpenParenthesis) {
            Some(_) => self.behind_parenthesis(tokens),
            None => self.named_or_nullable(tokens),
        }
    }
}

/// Takes `suspend` where `(` follows: it is no name then. Else it goes back.
fn suspends(tokens: &mut Tokens<'_>) -> bool
    ensures { Tries (suspend_ahead tokens.old) tokens.old result tokens.new }
{
    let place = tokens.rest();
    match tokens.take_soft_keyword(SoftKeyword::Suspend) {
        Some(_) => {
            if sign_ahead(tokens, Sign::OpenParenthesis) {
                true
            } else {
                tokens.go_to(place);
                false
            }
        }
        None => false,
    }
}

/// The one type of the list, where there is one alone.
#[tactic(auto, using(crate::proofs::TypeSteps::only_last, crate::proofs::TypeSteps::only_none))]
fn only(mut types: Items<TypeReference>) -> Option<TypeReference>
    ensures { result ≡ only_one types }
{
    let last = types.pop();
    if types.is_empty() { last } else { None }
}

/// `'?'?`
fn maybe_nullable(
    alloc: Global,
    inner: TypeReference,
    tokens: &mut Tokens<'_>,
) -> Result<TypeReference, ParseError>
    ensures { ReadsAs type_tree (readers.maybe_nullable (type_tree inner) tokens.old) result tokens.new }
{
    match tokens.take_sign(Sign::Question) {
        Some(_) => Ok(nullable(alloc, inner)?),
        None => Ok(inner),
    }
}

/// A type of at most `room` levels.
pub fn read_type(
    alloc: Global,
    room: u32,
    tokens: &mut Tokens<'_>,
) -> Result<TypeReference, ParseError>
    ensures { ReadsAs type_tree (type_parser room tokens.old) result tokens.new }
{
    if room == 0 {
        return Err(tokens.refuse());
    }
    TypesBelow {
        alloc,
        room: room - 1,
        read: read_type,
    }
    .whole(tokens)
}

/// The types of a list behind its `<`, each of at most `room` levels, and the `>`.
pub fn type_list(
    alloc: Global,
    room: u32,
    tokens: &mut Tokens<'_>,
) -> Result<Items<TypeReference>, ParseError>
    ensures { ReadsAs (map type_tree) (readers.commas (is_sign sign.Greater) (type_parser room) tokens.old) result tokens.new }
{
    TypesBelow {
        alloc,
        room,
        read: read_type,
    }
    .several(Sign::Greater, tokens)
}

/// A name and its type arguments, each of at most `room` levels; without room there are none.
pub fn named_type(
    alloc: Global,
    room: u32,
    tokens: &mut Tokens<'_>,
) -> Result<TypeReference, ParseError>
    ensures { ReadsAs type_tree (readers.named_type (some_levels room) (type_parser room) tokens.old)
        result tokens.new }
{
    TypesBelow {
        alloc,
        room,
        read: read_type,
    }
    .named(tokens)
}

/// `(':' type)?`, a type of at most `room` levels.
pub fn annotation(
    alloc: Global,
    room: u32,
    tokens: &mut Tokens<'_>,
) -> Result<Option<TypeReference>, ParseError>
    ensures { ReadsAs maybe_type (readers.maybe (is_sign sign.Colon) (type_parser room) tokens.old) result tokens.new }
{
    match tokens.take_sign(Sign::Colon) {
        Some(_) => annotation_rest(alloc, room, tokens),
        None => Ok(None),
    }
}

/// Behind `:`.
fn annotation_rest(
    alloc: Global,
    room: u32,
    tokens: &mut Tokens<'_>,
) -> Result<Option<TypeReference>, ParseError>
    ensures { ReadsAs maybe_type (some_type room tokens.old) result tokens.new }
{
    let written = read_type(alloc, room, tokens)?;
    Ok(Some(written))
}
