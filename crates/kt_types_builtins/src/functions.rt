//! The functions that are called without a receiver.

ghost use Rattle.kt_types_builtins.specs.Functions as spec;
ghost use Rattle.std.specs.Prelude.{◌≡◌};

/// A function that every program has, called without a receiver.
#[derive(Clone, Copy, Debug, PartialEq, Eq)]
pub enum BuiltInFunction {
    /// `println()`, which prints the empty text, and `println(x)`, which prints the text of a printable `x`
    Println,
    /// `launch(block)`, which starts a coroutine
    Launch,
    /// `suspendCoroutine<T>(block)`, which suspends
    SuspendCoroutine,
    /// `IntArray(size: Int)`, an array of zeros
    IntArray,
    /// `arrayOfNulls<T>(size: Int)`, an `Array<T?>` of nulls; `T` is no type parameter
    ArrayOfNulls,
}

/// All of them.
#[tactic(auto, unfolding(crate::specs::Functions::functions))]
fn functions() -> &'static [BuiltInFunction]
    ensures { result.now ≡ spec.functions }
{
    &[
        BuiltInFunction::Println,
        BuiltInFunction::Launch,
        BuiltInFunction::SuspendCoroutine,
        BuiltInFunction::IntArray,
        BuiltInFunction::ArrayOfNulls,
    ]
}

impl BuiltInFunction {
    /// How it is written, in ASCII.
    pub fn name(self) -> &'static [u8]
        ensures { result.now ≡ spec.function_name self }
    {
        match self {
            BuiltInFunction::Println => b"println",
            BuiltInFunction::Launch => b"launch",
            BuiltInFunction::SuspendCoroutine => b"suspendCoroutine",
            BuiltInFunction::IntArray => b"IntArray",
            BuiltInFunction::ArrayOfNulls => b"arrayOfNulls",
        }
    }

    /// The function that is written so; none where no built-in function is.
    #[tactic(auto, unfolding(crate::specs::Functions::function_of_name))]
    pub fn of_name(name: &[u8]) -> Option<BuiltInFunction>
        ensures { result ≡ spec.function_of_name name.now }
    {
        functions().iter().find(|f| f.name() == name).copied()
    }
}
