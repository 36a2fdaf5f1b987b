//! What a node of the tree is seen as.

ghost use Rattle.kt_base.specs.declared.refusals.Pos.{Pos};
ghost use Rattle.kt_tree.specs.declared.bodies.TextPart.{TextPart};
ghost use Rattle.kt_tree.specs.declared.declarations.EnumEntry.{EnumEntry};
ghost use Rattle.kt_tree.specs.declared.tokens.Token.{Token};
ghost use Rattle.std.specs.Prelude.{List, map};

use kt_base::Pos;
use kt_tree::{
    CatchBlock, ClassMember, ConstructorParameter, Declaration, EnumEntry, Expression,
    FunctionDeclaration, LambdaParameter, Parameter, Statement, StringPart, Supertype, TextPart,
    Token, TypeParameter, TypeReference, WhenCondition, WhenEntry,
};
use sqlite_items::Items;

/// A node of the tree, and what the grammar sees it as.
pub trait Node {
    ghost Tree: { Type 0 };

    ghost tree: { Self → Tree };
}

impl Node for TypeReference {
    ghost use Rattle.kt_tree.specs.Types.{TypeTree, type_tree};

    ghost Tree = { TypeTree };

    ghost tree = { type_tree };
}

impl Node for Expression {
    ghost use Rattle.kt_tree.specs.Bodies.{ExpressionTree, expression_tree};

    ghost Tree = { ExpressionTree };

    ghost tree = { expression_tree };
}

impl Node for Statement {
    ghost use Rattle.kt_tree.specs.Bodies.{StatementTree, statement_tree};

    ghost Tree = { StatementTree };

    ghost tree = { statement_tree };
}

impl Node for StringPart {
    ghost use Rattle.kt_tree.specs.Bodies.{PartTree, part_tree};

    ghost Tree = { PartTree };

    ghost tree = { part_tree };
}

impl Node for LambdaParameter {
    ghost use Rattle.kt_tree.specs.Bodies.{ParameterTree, parameter_tree};

    ghost Tree = { ParameterTree };

    ghost tree = { parameter_tree };
}

impl Node for WhenEntry {
    ghost use Rattle.kt_tree.specs.Bodies.{EntryTree, entry_tree};

    ghost Tree = { EntryTree };

    ghost tree = { entry_tree };
}

impl Node for WhenCondition {
    ghost use Rattle.kt_tree.specs.Bodies.{ConditionTree, condition_tree};

    ghost Tree = { ConditionTree };

    ghost tree = { condition_tree };
}

impl Node for CatchBlock {
    ghost use Rattle.kt_tree.specs.Bodies.{CatchTree, catch_tree};

    ghost Tree = { CatchTree };

    ghost tree = { catch_tree };
}

impl Node for Declaration {
    ghost use Rattle.kt_tree.specs.Declarations.{DeclarationTree, declaration_tree};

    ghost Tree = { DeclarationTree };

    ghost tree = { declaration_tree };
}

impl Node for FunctionDeclaration {
    ghost use Rattle.kt_tree.specs.Declarations.{FunctionTree, function_tree};

    ghost Tree = { FunctionTree };

    ghost tree = { function_tree };
}

impl Node for TypeParameter {
    ghost use Rattle.kt_tree.specs.Declarations.{TypeParameterTree, type_parameter_tree};

    ghost Tree = { TypeParameterTree };

    ghost tree = { type_parameter_tree };
}

impl Node for Parameter {
    ghost use Rattle.kt_tree.specs.Declarations.{TypedParameterTree, typed_parameter_tree};

    ghost Tree = { TypedParameterTree };

    ghost tree = { typed_parameter_tree };
}

impl Node for ConstructorParameter {
    ghost use Rattle.kt_tree.specs.Declarations.{ConstructorParameterTree, constructor_parameter_tree};

    ghost Tree = { ConstructorParameterTree };

    ghost tree = { constructor_parameter_tree };
}

impl Node for Supertype {
    ghost use Rattle.kt_tree.specs.Declarations.{SupertypeTree, supertype_tree};

    ghost Tree = { SupertypeTree };

    ghost tree = { supertype_tree };
}

impl Node for ClassMember {
    ghost use Rattle.kt_tree.specs.Declarations.{MemberTree, member_tree};

    ghost Tree = { MemberTree };

    ghost tree = { member_tree };
}

/// An entry of an enum has no part that is a tree.
impl Node for EnumEntry {
    ghost Tree = { EnumEntry };

    ghost tree = { λ entry. entry };
}

/// Text in a string has no part that is a tree.
impl Node for TextPart {
    ghost Tree = { TextPart };

    ghost tree = { λ part. part };
}

/// A token is seen as itself.
impl<'a> Node for &'a Token {
    ghost Tree = { Token };

    ghost tree = { λ token. token.now };
}

/// Where nothing is read but signs and words.
impl Node for () {
    ghost Tree = { Unit {0} };

    ghost tree = { λ u. u };
}

/// A list is seen as the list of its items.
impl<T: Node + Drop> Node for Items<T> {
    ghost Tree = { List T.Tree };

    ghost tree = { map T.tree };
}

/// A list, and the place of the token that closes it.
impl<T: Node + Drop> Node for (Items<T>, Pos) {
    ghost Tree = { List T.Tree × Pos };

    ghost tree = { λ list. (map T.tree list.0, list.1) };
}
