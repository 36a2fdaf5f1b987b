//! Arguments of type parameters that stand under arguments themselves.

use kt_types_tree::KtType;

/// The arguments under which a type is read.
#[derive(Clone, Copy)]
pub enum Environment<'a> {
    /// None: each type parameter stands for itself.
    Top,
    /// Arguments, which are read under the environment behind them.
    Under(&'a [KtType], &'a Environment<'a>),
}
