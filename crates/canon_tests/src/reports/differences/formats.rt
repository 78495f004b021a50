//! Differences as JSON, and in microns.

use super::layouts::layout;
use super::{WHOLE, differ_by, is_written};
use crate::reports::listings::layouts::kinds;
use crate::reports::markers::layouts::kinds as marked_kinds;
use oas_canon::Layout;
use oas_markers::{Detail, Format, Measure, Options, Syntax};
use std::test::Fail;

/// All that differs, as JSON.
const JSON: Options<'static> = Options {
    choice: WHOLE,
    detail: Detail::Elements,
    format: Format {
        syntax: Syntax::Json,
        measure: Measure::Grid,
    },
    limit: None,
};

/// All that differs, in microns.
const MICRONS: Options<'static> = Options {
    choice: WHOLE,
    detail: Detail::Elements,
    format: Format {
        syntax: Syntax::Lines,
        measure: Measure::Microns,
    },
    limit: None,
};

/// Both.
const JSON_MICRONS: Options<'static> = Options {
    choice: WHOLE,
    detail: Detail::Elements,
    format: Format {
        syntax: Syntax::Json,
        measure: Measure::Microns,
    },
    limit: None,
};

/// The counts of the first cell that differs, as JSON.
const FIRST_COUNTS: Options<'static> = Options {
    choice: WHOLE,
    detail: Detail::Counts,
    format: Format {
        syntax: Syntax::Json,
        measure: Measure::Microns,
    },
    limit: Some(1),
};

/// What a layout with elements of each kind and unit 3/2 has more often than one without cells.
const OBJECTS: &str = r#"{"kind":"unit","sign":"-","count":1,"num":3,"den":2}
{"kind":"unit","sign":"+","count":1,"num":1000,"den":1}
{"kind":"cell","sign":"-","count":1,"cell":"!"}
{"kind":"cell","sign":"-","count":1,"cell":"TOP"}
{"kind":"placement","sign":"-","count":1,"cell":"TOP","placed":"AB","x":-7,"y":12,"turns":3,"flip":1}
{"kind":"placement","sign":"-","count":1,"cell":"TOP","placed":"Z","x":0,"y":0,"turns":0,"flip":0}
{"kind":"text","sign":"-","count":1,"cell":"TOP","textlayer":3,"texttype":4,"x":-1,"y":-2,"string":""}
{"kind":"text","sign":"-","count":1,"cell":"TOP","textlayer":3,"texttype":4,"x":5,"y":6,"string":"two words "}
{"kind":"rectangle","sign":"-","count":2,"cell":"TOP","layer":1,"datatype":0,"width":10,"height":20,"x":-30,"y":-40}
{"kind":"rectangle","sign":"-","count":1,"cell":"TOP","layer":18446744073709551615,"datatype":0,"width":0,"height":0,"x":0,"y":0}
{"kind":"polygon","sign":"-","count":1,"cell":"TOP","layer":1,"datatype":2,"points":[[-5,0],[0,9],[4,-1]]}
{"kind":"path","sign":"-","count":1,"cell":"TOP","layer":6,"datatype":7,"half_width":8,"start":-9,"end":10,"points":[[1,-1]]}
{"kind":"path","sign":"-","count":1,"cell":"TOP","layer":6,"datatype":7,"half_width":8,"start":0,"end":0,"points":[[1,-1],[1,-1],[-1152921504606846976,1152921504606846976]]}
{"kind":"circle","sign":"-","count":1,"cell":"TOP","layer":5,"datatype":6,"radius":7,"x":-8,"y":9}
"#;

/// What a layout without cells lacks of one with elements of the kinds, by 1000 steps in a micron.
const LINES: &str = "+ 1 cell <&'>
+ 2 placement A'\\ -0.007 0.012 3 1
+ 1 text 3 4 0 0.006  <'&\\> 
+ 1 polygon 1 2 -0.005,0 0,0.009 0.004,-0.001
+ 1 path 6 7 0.008 -0.009 0.01 0,0 1,0 1,1152921504606846.976
+ 1 circle 5 6 0.007 -0.008 0.009
";

/// The same as JSON.
const OBJECTS_IN_MICRONS: &str = r#"{"kind":"cell","sign":"+","count":1,"cell":"<&'>"}
{"kind":"placement","sign":"+","count":2,"cell":"<&'>","placed":"A'\\","x":-0.007,"y":0.012,"turns":3,"flip":1}
{"kind":"text","sign":"+","count":1,"cell":"<&'>","textlayer":3,"texttype":4,"x":0,"y":0.006,"string":" <'&\\> "}
{"kind":"polygon","sign":"+","count":1,"cell":"<&'>","layer":1,"datatype":2,"points":[[-0.005,0],[0,0.009],[0.004,-0.001]]}
{"kind":"path","sign":"+","count":1,"cell":"<&'>","layer":6,"datatype":7,"half_width":0.008,"start":-0.009,"end":0.01,"points":[[0,0],[1,0],[1,1152921504606846.976]]}
{"kind":"circle","sign":"+","count":1,"cell":"<&'>","layer":5,"datatype":6,"radius":0.007,"x":-0.008,"y":0.009}
"#;

/// Whether what is written of these elements of each kind and of no cell is that text.
fn lists_objects(rt: &HostRuntime, before: &Layout) -> Result<bool, Fail> {
    let after = layout(rt.alloc(), (1000, "", &[]))?;
    Ok(is_written(rt, before, &after, JSON, OBJECTS))
}

#[test]
fn each_kind_has_its_object(rt: HostRuntime) -> Result<(), Fail> {
    let before = kinds(rt.alloc())?;
    assert!(rt; lists_objects(&rt, &before)?);
    Ok(())
}

/// Whether what is written of no cell and of these elements is both texts in microns.
fn lists_microns(rt: &HostRuntime, after: &Layout) -> Result<bool, Fail> {
    let before = layout(rt.alloc(), (1000, "", &[]))?;
    Ok(
        is_written(rt, &before, after, MICRONS, LINES)
            && is_written(rt, &before, after, JSON_MICRONS, OBJECTS_IN_MICRONS),
    )
}

#[test]
fn each_kind_in_microns(rt: HostRuntime) -> Result<(), Fail> {
    let after = marked_kinds(rt.alloc())?;
    assert!(rt; lists_microns(&rt, &after)?);
    Ok(())
}

#[test]
fn thirds_of_a_micron_end_after_64_digits(rt: HostRuntime) -> Result<(), Fail> {
    let text = "@ cell A
- 1 rectangle 1 0 3.3333333333333333333333333333333333333333333333333333333333333333 6.6666666666666666666666666666666666666666666666666666666666666666 0 0
";
    let before = [(0, 1, 1)];
    assert!(rt; differ_by(&rt, (3, "A", &before), (3, "A", &[]), MICRONS, text)?);
    Ok(())
}

#[test]
fn a_last_object_says_that_there_are_more(rt: HostRuntime) -> Result<(), Fail> {
    let text = r#"{"kind":"cell","sign":"@","cell":"A","removed":2,"added":1}
{"kind":"more"}
"#;
    let (before, after) = ([(0, 1, 2)], [(0, 2, 1)]);
    assert!(rt;
        differ_by(
            &rt,
            (1000, "AB", &before),
            (1000, "A", &after),
            FIRST_COUNTS,
            text
        )?
    );
    Ok(())
}
