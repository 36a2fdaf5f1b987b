//! Texts with what they are: a sentence, or the place at which they are none.

/// A text, and the line and column of the token that is refused; 0 and 0 where the text is a sentence.
pub(crate) type Row = (&'static str, u32, u32);

/// Rows 1 to 22.
pub(crate) fn rows_1() -> &'static [Row] {
    &[
        ("fun f() { if ( c ) if ( d ) f ( ) else g ( ) }", 0, 0),
        ("fun f() { f < A > ( x ) }", 0, 0),
        ("fun f() { f < A }", 0, 0),
        ("fun f() { f < A > { } }", 0, 0),
        ("fun f() { g ( a < b , c > ( d ) ) }", 0, 0),
        ("fun f() { g ( a < b , c > d ) }", 0, 0),
        ("fun f() { a < b > c }", 1, 19),
        ("fun f() { a < b < c }", 1, 21),
        ("fun f() { f ( a , ) }", 1, 19),
        ("fun f() { f ( , a ) }", 1, 15),
        ("fun f() { f ( ) }", 0, 0),
        ("fun f() { f ( a , b ) { c } }", 0, 0),
        ("fun f() { f { } { } }", 0, 0),
        ("fun f() { f ( x ) \n{ } }", 2, 1),
        ("fun f() { try { } }", 1, 19),
        ("fun f() { try { } \nx }", 2, 1),
        ("fun f() { try { } catch ( e : E ) { } }", 0, 0),
        (
            "fun f() { try { } \ncatch ( e : E ) { } \nfinally { x } }",
            0,
            0,
        ),
        ("fun f() { try { } finally { } }", 0, 0),
        ("fun f() { try { } catch ( e ) { } }", 1, 29),
        ("fun f() { if ( c ) a ; \nelse b }", 0, 0),
        ("fun f() { if ( c ) a \nelse b }", 0, 0),
    ]
}

/// Rows 23 to 44.
pub(crate) fn rows_2() -> &'static [Row] {
    &[
        ("fun f() { if ( c ) { } else { } }", 0, 0),
        ("fun f() { if ( c ) else a }", 1, 20),
        ("fun f() { if ( c ) a ; b }", 0, 0),
        ("fun f() { val x = if ( c ) 1 else 2 }", 0, 0),
        (
            "fun f() { when ( x ) { 1 -> if ( c ) a \nelse -> b } }",
            0,
            0,
        ),
        (
            "fun f() { when ( x ) { 1 -> if ( c ) a else b ; else -> d } }",
            0,
            0,
        ),
        ("fun f() { if ( c ) a else -> b }", 1, 27),
        ("fun f() { x \n. f ( ) }", 0, 0),
        ("fun f() { x ?. y \n?. z }", 0, 0),
        ("fun f() { - a . b }", 0, 0),
        ("fun f() { ! - a }", 0, 0),
        ("fun f() { a as B < c }", 0, 0),
        ("fun f() { a as? B ?: c }", 0, 0),
        ("fun f() { a as B ? as C }", 0, 0),
        ("fun f() { val f : ( Int ) -> Int ? = g }", 0, 0),
        ("fun f() { val f : suspend ( ) -> Unit }", 0, 0),
        ("fun f() { val f : suspend }", 0, 0),
        ("fun f() { val f : ( A , B < C > ) -> ( D ) ? }", 0, 0),
        ("fun f() { val f : ( A , B ) }", 1, 29),
        ("fun f() { val f : ( ) -> A ? ? }", 1, 30),
        ("fun f() { val f : ( A ) ? }", 0, 0),
        ("fun f() { val f = { a , b -> a } }", 0, 0),
    ]
}

/// Rows 45 to 66.
pub(crate) fn rows_3() -> &'static [Row] {
    &[
        ("fun f() { val f = { a : Int -> \na ; b \n} }", 0, 0),
        ("fun f() { val f = { } }", 0, 0),
        ("fun f() { { a } }", 1, 11),
        ("fun f() { if ( c ) { a } \nb }", 0, 0),
        ("fun f() { while ( c ) f { break } }", 1, 27),
        ("fun f() { while ( c ) break }", 0, 0),
        ("fun f() { break }", 1, 11),
        ("fun f() { while ( c ) { continue } }", 0, 0),
        ("fun f() { do { break } while ( c ) }", 0, 0),
        ("fun f() { do x }", 1, 14),
        ("fun f() { while ( break ) { } }", 1, 19),
        ("fun f() { f { return } }", 1, 15),
        ("fun f() { return }", 0, 0),
        ("fun f() { return 1 + 2 }", 0, 0),
        ("fun f() { throw a }", 0, 0),
        ("fun f() { throw }", 1, 17),
        ("fun f() { a + return \nb }", 0, 0),
        ("fun f() { a = b }", 0, 0),
        ("fun f() { a + b = c }", 1, 17),
        ("fun f() { a . b = c }", 0, 0),
        ("fun f() { a ?. b = c }", 1, 18),
        ("fun f() { a [ 0 ] += 1 }", 0, 0),
    ]
}

/// Rows 67 to 88.
pub(crate) fn rows_4() -> &'static [Row] {
    &[
        ("fun f() { a ++ }", 0, 0),
        ("fun f() { ( a ) = b }", 1, 17),
        ("fun f() { f ( ) = b }", 1, 17),
        ("fun f() { a = b = c }", 1, 17),
        ("fun f() { val x }", 0, 0),
        ("fun f() { val x : Int = \n1 }", 0, 0),
        ("fun f() { val = 1 }", 1, 15),
        ("fun f() { var x = 1 y }", 1, 21),
        ("fun f() { for ( i in a .. b ) c }", 0, 0),
        ("fun f() { for ( i in a until b ) { break } }", 0, 0),
        ("fun f() { for ( i in a , b ) c }", 1, 24),
        (
            "fun f() { when ( x ) { 1 -> a ; is Int , 2 -> b \nelse -> c } }",
            0,
            0,
        ),
        ("fun f() { when { is Int -> a } }", 1, 18),
        ("fun f() { when { } }", 0, 0),
        ("fun f() { when \n{ a \n-> { } } }", 0, 0),
        ("fun f() { when ( x ) { else , 1 -> a } }", 1, 29),
        ("fun f() { a \n?: b }", 0, 0),
        ("fun f() { a \n&& b \n|| c }", 0, 0),
        ("fun f() { a \n+ b }", 2, 1),
        ("fun f() { a \n- b }", 0, 0),
        ("fun f() { a + \nb }", 0, 0),
        ("fun f() { a == b == c }", 0, 0),
    ]
}

/// Rows 89 to 110.
pub(crate) fn rows_5() -> &'static [Row] {
    &[
        ("fun f() { a is B }", 0, 0),
        ("fun f() { a !is B }", 0, 0),
        ("fun f() { a is B is C }", 1, 18),
        ("fun f() { a and b or c }", 0, 0),
        ("fun f() { 1 shl 2 }", 0, 0),
        ("fun f() { a . 1 }", 1, 15),
        ("fun f() { a !! . b [ 0 ] ( c ) }", 0, 0),
        ("fun f() { true == null }", 0, 0),
        ("fun f() { 'c' }", 0, 0),
        ("fun f() { this . x }", 0, 0),
        ("fun f() { ( ) }", 1, 13),
        ("fun f() { fun }", 1, 11),
        ("fun f() { x : Int }", 1, 13),
        ("\n; fun f ( ) { } ; \n", 0, 0),
        ("fun f ( ) { } fun g ( ) { } ", 1, 15),
        ("fun f ( a : Int , ) { } ", 1, 19),
        ("fun f ( ) : Int = 1 ", 0, 0),
        ("fun f ( ) = 1 ", 1, 11),
        ("fun f ( ) ", 1, 11),
        ("abstract fun f ( ) ", 0, 0),
        ("fun < T > f ( x : T ) \n{ } ", 0, 0),
        ("suspend fun main ( ) { } ", 0, 0),
    ]
}

/// Rows 111 to 129.
pub(crate) fn rows_6() -> &'static [Row] {
    &[
        ("suspend suspend fun f ( ) { } ", 1, 9),
        ("open open class A ", 1, 6),
        ("data class P ( val x : Int , y : Int ) ", 0, 0),
        (
            "class A < T : B > ( x : Int ) : C ( x ) , \nD \n{ val y : Int = 1 ; fun f ( ) { } } ",
            0,
            0,
        ),
        ("class A { fun < T > f ( ) { } } ", 1, 15),
        ("class A { val x : Int } ", 1, 23),
        (
            "class A { abstract fun f ( ) \noverride suspend fun g ( ) { } } ",
            0,
            0,
        ),
        ("interface I { fun f ( ) : Int \nfun g ( ) } ", 0, 0),
        ("interface I { fun f ( ) { } } ", 1, 25),
        ("interface I : J ( ) ", 1, 17),
        ("interface I : J < A > , K ", 0, 0),
        ("class A : B < C > ( ) ", 0, 0),
        ("enum class E { A , B } ", 0, 0),
        ("enum class E { } ", 1, 16),
        ("enum class E { A , } ", 1, 20),
        ("enum class E { \nA \n, \nB \n} ", 0, 0),
        ("const val X = - 1 ", 0, 0),
        ("const val X = a ", 1, 15),
        ("val x = 1 ", 1, 1),
    ]
}
