//! Printed trees of texts.
use ast_printer::print_ast;
use std::alloc::Global;
use std::test::Fail;
use twe_base::Bytes;
use twe_parser::{ParseFail, parse};

/// The printed tree of a text.
fn reprinted(alloc: Global, text: &[u8]) -> Result<Bytes, ParseFail> {
    let ast = parse(alloc, text)?;
    Ok(print_ast(alloc, &ast)?)
}

const TEXTS: &[(&[u8], &[u8])] = &[
    (
        b"region A;\nint x in A = 41;\ntask void main() writes A { x = x + 1; }",
        b"region A ;\nint x in A = 41 ;\ntask void main ( ) writes A {\nx = x + 1 ;\n}\n",
    ),
    (
        b"task void main() pure { }",
        b"task void main ( ) pure {\n}\n",
    ),
    (
        b"int m(int i) reads Root:A:[i], Root:* writes Root { /* dropped */ \
return (a[i] + ((2))) * -(1 * 3) - (5 - -2147483648); }",
        b"int m ( int i ) reads A : [ i ] , Root : * writes Root {\n\
return ( a [ i ] + 2 ) * - ( 1 * 3 ) - ( 5 - - 2147483648 ) ;\n}\n",
    ),
];

#[test]
fn trees_are_printed(rt: HostRuntime) -> Result<(), Fail> {
    for (text, wanted) in TEXTS {
        let printed = reprinted(rt.alloc(), text)?;
        assert_eq!(rt; printed.as_slice(), *wanted);
        let again = reprinted(rt.alloc(), printed.as_slice())?;
        assert_eq!(rt; again.as_slice(), *wanted);
    }
    Ok(())
}
