//! Laws on the grammar. A body has nothing to do: the contract is the law.

ghost use Rattle.kt_grammar.specs.Declarations.{OneTree};
ghost use Rattle.kt_grammar.specs.Laws.{
  ExpressionIsRead,
  ExpressionIsRefused,
  ExpressionReadsExpressions,
  FileHasLevels,
  FileIsRead,
  FileIsRefused,
  FileReadsFiles,
  OneExpression,
  OneStatement,
  OneType,
  StatementIsRead,
  StatementIsRefused,
  StatementReadsStatements,
  TypeIsRead,
  TypeIsRefused,
  TypeReadsTypes,
};

/// A list of tokens spells at most one type.
#[tactic(auto, using(crate::proofs::types::TypeLaws::one_type))]
pub fn one_type()
    ensures { OneType }
{}

/// The parser of types in the definitions reads exactly the types, both ways, and refuses the first token that no
/// type has there.
#[tactic(auto, using(crate::proofs::types::TypeLaws::type_is_read, crate::proofs::types::TypeLaws::type_reads_types, crate::proofs::types::TypeLaws::type_is_refused))]
pub fn types_are_read()
    ensures read { TypeIsRead }
    ensures only { TypeReadsTypes }
    ensures refused { TypeIsRefused }
{}

/// A list of tokens spells at most one expression, of any number of levels and wherever it stands.
#[tactic(auto, using(crate::proofs::statements::ExpressionLaws::one_expression))]
pub fn one_expression()
    ensures { OneExpression }
{}

/// The parser of expressions in the definitions reads exactly the expressions, both ways, and refuses the first token
/// that no expression has there.
#[tactic(auto, using(crate::proofs::statements::ExpressionLaws::expression_is_read, crate::proofs::statements::ExpressionLaws::expression_reads_expressions, crate::proofs::statements::ExpressionLaws::expression_is_refused))]
pub fn expressions_are_read()
    ensures read { ExpressionIsRead }
    ensures only { ExpressionReadsExpressions }
    ensures refused { ExpressionIsRefused }
{}

/// A list of tokens spells at most one statement.
#[tactic(auto, using(crate::proofs::statements::ExpressionLaws::one_statement))]
pub fn one_statement()
    ensures { OneStatement }
{}

/// The parser of statements in the definitions reads exactly the statements, both ways, and refuses the first token
/// that no statement has there.
#[tactic(auto, using(crate::proofs::statements::ExpressionLaws::statement_is_read, crate::proofs::statements::ExpressionLaws::statement_reads_statements, crate::proofs::statements::ExpressionLaws::statement_is_refused))]
pub fn statements_are_read()
    ensures read { StatementIsRead }
    ensures only { StatementReadsStatements }
    ensures refused { StatementIsRefused }
{}

/// A list of tokens has at most one tree of a file.
pub fn one_tree()
    ensures { OneTree }
{}

/// The parser of files in the definitions reads exactly the files, both ways, and refuses the first token that extends
/// no prefix of a file's tokens.
#[tactic(auto, using(crate::proofs::declarations::FileLaws::file_is_read, crate::proofs::declarations::FileLaws::file_reads_files, crate::proofs::declarations::FileLaws::file_is_refused))]
pub fn files_are_read()
    ensures read { FileIsRead }
    ensures only { FileReadsFiles }
    ensures refused { FileIsRefused }
{}

/// A file has at most 200 levels.
pub fn levels_of_files()
    ensures { FileHasLevels }
{}
