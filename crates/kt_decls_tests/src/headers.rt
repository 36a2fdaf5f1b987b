//! Files of functions and constants, and what their headers are answered.

use crate::trees::file;
use kt_base::FrontErr;
use kt_decls::declare;
use std::alloc::Global;
use std::test::Fail;

/// What the headers of a file are answered.
#[derive(Clone, Copy, Debug, PartialEq, Eq)]
enum Answer {
    /// They are well formed, so many functions and constants.
    Fine(usize),
    /// They are refused at the declaration on this line.
    Line(u32),
    /// Another kind of answer, which no row expects.
    Other,
}

fn told(alloc: Global, functions: &[&str]) -> Result<Answer, Fail> {
    let tree = file(alloc, functions)?;
    match declare(alloc, &tree) {
        Ok(decls) => Ok(Answer::Fine(decls.headers.order.len())),
        Err(FrontErr::Refused(refusal)) => Ok(Answer::Line(refusal.pos.line)),
        Err(FrontErr::NoMemory) => Ok(Answer::Other),
    }
}

/// Declarations in letters, and the answer.
type Row = (&'static [&'static str], Answer);

/// Accepted.
fn accepted() -> &'static [Row] {
    &[
        (&[], Answer::Fine(0)),
        (&["mu"], Answer::Fine(1)),
        (&["m."], Answer::Fine(1)),
        (&["Sm."], Answer::Fine(1)),
        (&["mP"], Answer::Fine(1)),
        (&["maiu"], Answer::Fine(1)),
        (&["maii"], Answer::Fine(1)),
        (&["mu", "maii"], Answer::Fine(2)),
        (&["gi", "gaii", "gaibii"], Answer::Fine(3)),
        (&["gi", "hi", "mu"], Answer::Fine(3)),
        (&["Sgi"], Answer::Fine(1)),
        (&["gaiblgchb."], Answer::Fine(1)),
        (&["gasbugnhamy."], Answer::Fine(1)),
        (&["gaebIhUB"], Answer::Fine(1)),
        (&["gaCbFhGB"], Answer::Fine(1)),
        (&["gn"], Answer::Fine(1)),
        (&["zu"], Answer::Fine(1)),
        (&["ti"], Answer::Fine(1)),
        (&["tai"], Answer::Fine(1)),
        (&["ggi."], Answer::Fine(1)),
        (&["gmi."], Answer::Fine(1)),
        (&["gpi."], Answer::Fine(1)),
        (&["gki."], Answer::Fine(1)),
        (&["gii."], Answer::Fine(1)),
        (&["gai", "hai"], Answer::Fine(2)),
    ]
}

/// Refused for a name.
fn names() -> &'static [Row] {
    &[
        (&["p."], Answer::Line(1)),
        (&["pai."], Answer::Line(1)),
        (&["l."], Answer::Line(1)),
        (&["s."], Answer::Line(1)),
        (&["q."], Answer::Line(1)),
        (&["y."], Answer::Line(1)),
        (&["i."], Answer::Line(1)),
        (&["n."], Answer::Line(1)),
        (&["c."], Answer::Line(1)),
        (&["e."], Answer::Line(1)),
        (&["x."], Answer::Line(1)),
        (&["k."], Answer::Line(1)),
        (&["g.", "k."], Answer::Line(2)),
        (&["g.", "g."], Answer::Line(2)),
        (&["g.", "h.", "g."], Answer::Line(3)),
        (&["gai.", "gbs."], Answer::Line(2)),
        (&["gai.", "g.", "gas."], Answer::Line(3)),
        (&["g.", "g.", "k."], Answer::Line(2)),
        (&["mu", "mu"], Answer::Line(2)),
        (&["Sm.", "m."], Answer::Line(2)),
        (&["gaiai."], Answer::Line(1)),
        (&["gaibias."], Answer::Line(1)),
        (&["h.", "gaibsbi."], Answer::Line(2)),
    ]
}

/// Refused for a type.
fn types() -> &'static [Row] {
    &[
        (&["gx"], Answer::Line(1)),
        (&["gj"], Answer::Line(1)),
        (&["gk"], Answer::Line(1)),
        (&["gax."], Answer::Line(1)),
        (&["gaibx."], Answer::Line(1)),
        (&["gaz."], Answer::Line(1)),
        (&["gz"], Answer::Line(1)),
        (&["gad."], Answer::Line(1)),
        (&["gA"], Answer::Line(1)),
        (&["gaA."], Answer::Line(1)),
        (&["gD"], Answer::Line(1)),
        (&["gE"], Answer::Line(1)),
        (&["gQ"], Answer::Line(1)),
        (&["gN"], Answer::Line(1)),
        (&["gH"], Answer::Line(1)),
        (&["gaH."], Answer::Line(1)),
        (&["g.", "hx"], Answer::Line(2)),
        (&["gx", "gx"], Answer::Line(1)),
        (&["g.", "gx", "hx"], Answer::Line(2)),
    ]
}

/// Refused for a modifier, or for the result of `main`.
fn others() -> &'static [Row] {
    &[
        (&["Rg."], Answer::Line(1)),
        (&["Og."], Answer::Line(1)),
        (&["Ag."], Answer::Line(1)),
        (&["ROg."], Answer::Line(1)),
        (&["SRg."], Answer::Line(1)),
        (&["g.", "Oh."], Answer::Line(2)),
        (&["mi"], Answer::Line(1)),
        (&["Smi"], Answer::Line(1)),
        (&["mU"], Answer::Line(1)),
        (&["ma"], Answer::Line(1)),
        (&["mn"], Answer::Line(1)),
        (&["ms"], Answer::Line(1)),
        (&["g.", "mi"], Answer::Line(2)),
        (&["mi", "k."], Answer::Line(1)),
        (&["mai.", "mi"], Answer::Line(2)),
        (&["Rm."], Answer::Line(1)),
    ]
}

/// Constants that are accepted.
fn constants() -> &'static [Row] {
    &[
        (&["=ai1"], Answer::Fine(1)),
        (&["=a.1"], Answer::Fine(1)),
        (&["=ai0"], Answer::Fine(1)),
        (&["=ai-1"], Answer::Fine(1)),
        (&["=a.-1"], Answer::Fine(1)),
        (&["=ai7"], Answer::Fine(1)),
        (&["=ai-7"], Answer::Fine(1)),
        (&["=al1"], Answer::Fine(1)),
        (&["=al-1"], Answer::Fine(1)),
        (&["=al7"], Answer::Fine(1)),
        (&["=al8"], Answer::Fine(1)),
        (&["=al-8"], Answer::Fine(1)),
        (&["=a.8"], Answer::Fine(1)),
        (&["=a.-8"], Answer::Fine(1)),
        (&["=al9"], Answer::Fine(1)),
        (&["=a.-9"], Answer::Fine(1)),
        (&["=all"], Answer::Fine(1)),
        (&["=al-l"], Answer::Fine(1)),
        (&["=a.l"], Answer::Fine(1)),
        (&["=acc"], Answer::Fine(1)),
        (&["=a.c"], Answer::Fine(1)),
        (&["=abt"], Answer::Fine(1)),
        (&["=abf"], Answer::Fine(1)),
        (&["=a.t"], Answer::Fine(1)),
        (&["=ass"], Answer::Fine(1)),
        (&["=a.s"], Answer::Fine(1)),
        (&["=ai1", "=bi1", "g."], Answer::Fine(3)),
        (&["mu", "=ai1"], Answer::Fine(2)),
        (&["=m.1", "gai."], Answer::Fine(2)),
    ]
}

/// Constants that are refused.
fn wrong_constants() -> &'static [Row] {
    &[
        (&["=ai8"], Answer::Line(1)),
        (&["=ai-8"], Answer::Line(1)),
        (&["=ail"], Answer::Line(1)),
        (&["=a.x"], Answer::Line(1)),
        (&["=alx"], Answer::Line(1)),
        (&["=a.-x"], Answer::Line(1)),
        (&["=a.n"], Answer::Line(1)),
        (&["=ain"], Answer::Line(1)),
        (&["=aIn"], Answer::Line(1)),
        (&["=aI1"], Answer::Line(1)),
        (&["=a.-t"], Answer::Line(1)),
        (&["=ab-f"], Answer::Line(1)),
        (&["=ac-c"], Answer::Line(1)),
        (&["=ab1"], Answer::Line(1)),
        (&["=alc"], Answer::Line(1)),
        (&["=aic"], Answer::Line(1)),
        (&["=ac1"], Answer::Line(1)),
        (&["=as1"], Answer::Line(1)),
        (&["=ais"], Answer::Line(1)),
        (&["=aa1"], Answer::Line(1)),
        (&["=au1"], Answer::Line(1)),
        (&["=aj1"], Answer::Line(1)),
        (&["=aA1"], Answer::Line(1)),
        (&["=p.1"], Answer::Line(1)),
        (&["=i.1"], Answer::Line(1)),
        (&["=k.1"], Answer::Line(1)),
        (&["=a.1", "=a.1"], Answer::Line(2)),
        (&["=a.1", "a."], Answer::Line(2)),
        (&["aii.", "=a.1"], Answer::Line(2)),
        (&["g.", "=a.n", "gx"], Answer::Line(2)),
    ]
}

/// Type parameters that are accepted.
fn type_parameters() -> &'static [Row] {
    &[
        (&["<1.>g."], Answer::Fine(1)),
        (&["<1.>ga1b11"], Answer::Fine(1)),
        (&["<1.2.>ga1b2."], Answer::Fine(1)),
        (&["<1a>ga1T"], Answer::Fine(1)),
        (&["<1I>gaK."], Answer::Fine(1)),
        (&["<12233.>g1"], Answer::Fine(1)),
        (&["<122a>gaVT"], Answer::Fine(1)),
        (&["<1.21>gaS."], Answer::Fine(1)),
        (&["<1K>g."], Answer::Fine(1)),
        (&["<i.>gaii"], Answer::Fine(1)),
        (&["<g.>g."], Answer::Fine(1)),
        (&["<1.>g1", "<1.>h1"], Answer::Fine(2)),
        (&["<1.>mai1"], Answer::Fine(1)),
        (&["S<1.2.>g1", "=a.1", "<1.>h1"], Answer::Fine(3)),
    ]
}

/// Type parameters that are refused.
fn wrong_type_parameters() -> &'static [Row] {
    &[
        (&["<1.1.>g."], Answer::Line(1)),
        (&["<1.2.1.>g."], Answer::Line(1)),
        (&["<11>g."], Answer::Line(1)),
        (&["<1T>g."], Answer::Line(1)),
        (&["<1221>g."], Answer::Line(1)),
        (&["<122331>g."], Answer::Line(1)),
        (&["<1233>ga1."], Answer::Line(1)),
        (&["<1.22>g."], Answer::Line(1)),
        (&["<1x>g."], Answer::Line(1)),
        (&["<12>g."], Answer::Line(1)),
        (&["<1.>ga2."], Answer::Line(1)),
        (&["<1.>gX"], Answer::Line(1)),
        (&["<1.>gaO."], Answer::Line(1)),
        (&["<1.>m."], Answer::Line(1)),
        (&["<1.>mu"], Answer::Line(1)),
        (&["<1.>g.", "ha1."], Answer::Line(2)),
        (&["<1.>g.", "h.", "<22>a."], Answer::Line(3)),
        (&["<1.2.>g.", "<12>h."], Answer::Line(2)),
        (&["<1x>g.", "<1.>g."], Answer::Line(1)),
        (&["<1.>g.", "<1.2.>g."], Answer::Line(2)),
    ]
}

fn is_as_told(alloc: Global, rows: &[Row]) -> Result<bool, Fail> {
    for row in rows {
        let (functions, expected) = *row;
        if told(alloc, functions)? != expected {
            return Ok(false);
        }
    }
    Ok(true)
}

#[test]
fn headers_are_accepted(rt: HostRuntime) -> Result<(), Fail> {
    assert!(rt; is_as_told(rt.alloc(), accepted())?);
    assert_eq!(rt; accepted().len(), 25);
    Ok(())
}

#[test]
fn constants_are_accepted(rt: HostRuntime) -> Result<(), Fail> {
    assert!(rt; is_as_told(rt.alloc(), constants())?);
    Ok(())
}

#[test]
fn constants_are_refused(rt: HostRuntime) -> Result<(), Fail> {
    assert!(rt; is_as_told(rt.alloc(), wrong_constants())?);
    Ok(())
}

#[test]
fn type_parameters_are_accepted(rt: HostRuntime) -> Result<(), Fail> {
    assert!(rt; is_as_told(rt.alloc(), type_parameters())?);
    Ok(())
}

#[test]
fn type_parameters_are_refused(rt: HostRuntime) -> Result<(), Fail> {
    assert!(rt; is_as_told(rt.alloc(), wrong_type_parameters())?);
    Ok(())
}

#[test]
fn names_are_refused(rt: HostRuntime) -> Result<(), Fail> {
    assert!(rt; is_as_told(rt.alloc(), names())?);
    Ok(())
}

#[test]
fn types_are_refused(rt: HostRuntime) -> Result<(), Fail> {
    assert!(rt; is_as_told(rt.alloc(), types())?);
    Ok(())
}

#[test]
fn other_headers_are_refused(rt: HostRuntime) -> Result<(), Fail> {
    assert!(rt; is_as_told(rt.alloc(), others())?);
    Ok(())
}
