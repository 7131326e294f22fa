//! Statements and faults with columns that were found by hand.

use crate::{StmtFault, read_stmt, write_stmt};
use dt_model::{LINE_LIMIT, Stmt};
use std::alloc::Global;
use std::test::Fail;

/// A statement of a text that fits a line.
fn read(alloc: Global, text: &[u8]) -> Result<Stmt, StmtFault> {
    if text.len() > LINE_LIMIT {
        return Err(StmtFault::NoMemory);
    }
    read_stmt(alloc, text)
}

/// Every form fault, the end column, and names of 32 and 33 bytes.
#[test]
fn form_faults_are_at_the_first_token_that_fits_nowhere(rt: HostRuntime) -> Result<(), Fail> {
    let rows: [(&[u8], u32); 28] = [
        (b"", 1),
        (b"  \t ", 1),
        (b"y  ", 2),
        (b"y(i)", 5),
        (b" y(i) \t", 6),
        (b"y(i) =", 7),
        (b"= 1", 1),
        (b"y(i) = 2b(i)", 9),
        (b"y(i) = b(i)2", 12),
        (b"y = \xc3\xa9", 5),
        (b"y = 1 1", 7),
        (b"y = ((1)", 9),
        (b"y = 1)", 6),
        (b"y = ()", 6),
        (b"y = - - 1", 7),
        (b"y = 1 + - 1", 9),
        (b"y = 1 * - 1", 9),
        (b"y = a", 6),
        (b"y = a + 1", 7),
        (b"y = a()", 7),
        (b"y() = 1", 3),
        (b"y(i,) = 1", 5),
        (b"y(i = 1", 5),
        (b"y(1) = 1", 3),
        (b"y = 1 *", 8),
        (b"y = 1 = 1", 7),
        (b"abcdefghijklmnopqrstuvwxyzabcdefg = 1", 1),
        (
            b"abcdefghijklmnopqrstuvwxyzabcdef = a(abcdefghijklmnopqrstuvwxyzabcdefg)",
            38,
        ),
    ];
    for (text, column) in rows {
        match read(rt.alloc(), text) {
            Ok(_) => return Err(Fail::new("read")),
            Err(fault) => assert_eq!(rt; fault, StmtFault::Form { column }),
        }
    }
    Ok(())
}

/// Each limit at its first excess, and, in the same column, a token that no statement has there: that is
/// a form fault.
#[test]
fn limits_are_at_the_first_excess(rt: HostRuntime) -> Result<(), Fail> {
    let rows: [(&[u8], StmtFault); 18] = [
        (b"y = 18446744073709551616", StmtFault::Limit { column: 5 }),
        (b"y = 1 18446744073709551616", StmtFault::Form { column: 7 }),
        (
            b"y = 00000000000000000000000018446744073709551616",
            StmtFault::Limit { column: 5 },
        ),
        (
            b"y=1+1+1+1+1+1+1+1+1+1+1+1+1",
            StmtFault::Limit { column: 27 },
        ),
        (
            b"y=1+1+1+1+1+1+1+1+1+1+1+1+*",
            StmtFault::Form { column: 27 },
        ),
        (
            b"y=1+1+1+1+1+1+1+1+1+1+1+1 1",
            StmtFault::Form { column: 27 },
        ),
        (
            b"y=a(i)*a(i)*a(i)*a(i)*a(i)*a(i)*a(i)*a(i)*a(i)*a(i)*a(i)*a(i)*a",
            StmtFault::Limit { column: 63 },
        ),
        (
            b"y=a(i)*a(i)*a(i)*a(i)*a(i)*a(i)*a(i)*a(i)*a(i)*a(i)*a(i)*a(i) a(i)",
            StmtFault::Form { column: 63 },
        ),
        (b"y(a,b,c,d,e,f,g,h,i)=1", StmtFault::Limit { column: 19 }),
        (b"y(a,b,c,d,e,f,g,h,1)=1", StmtFault::Form { column: 19 }),
        (b"y(a,a,a,a,a,a,a,a,a)=1", StmtFault::Limit { column: 19 }),
        (b"y=t(a,b,c,d,e,f,g,h,a)", StmtFault::Limit { column: 21 }),
        (b"y=t(a,b,c,d,e,f,g,h,()", StmtFault::Form { column: 21 }),
        (b"y(a,b,c,d,e,f,g,h)=t(i)", StmtFault::Limit { column: 22 }),
        (b"y(a,b,c,d,e,f,g,h)=t(+)", StmtFault::Form { column: 22 }),
        (b"y=(((((((((((((((((1", StmtFault::Limit { column: 19 }),
        (b"y=((((((((((((((((*", StmtFault::Form { column: 19 }),
        (b"y=((((((((((((((((1 (", StmtFault::Form { column: 21 }),
    ];
    for (text, wanted) in rows {
        match read(rt.alloc(), text) {
            Ok(_) => return Err(Fail::new("read")),
            Err(fault) => assert_eq!(rt; fault, wanted),
        }
    }
    Ok(())
}

/// Each statement is written as its canonical text, which is read and written as itself.
#[test]
fn canonical_text_reads_back(rt: HostRuntime) -> Result<(), Fail> {
    let rows: [(&[u8], &[u8]); 28] = [
        (b"y(i)=A(i,j)*x( j )+(z(i))", b"y(i) = A(i,j) * x(j) + z(i)"),
        (b"y=1", b"y = 1"),
        (b" y = ((0007)) ", b"y = 7"),
        (b"y=18446744073709551615", b"y = 18446744073709551615"),
        (b"A(i,j)=B(i,k)*C(k,j)", b"A(i,j) = B(i,k) * C(k,j)"),
        (b"A(i,j)=A(j,i)", b"A(i,j) = A(j,i)"),
        (b"y=a(i)+b(i)+c(i)", b"y = a(i) + b(i) + c(i)"),
        (b"y=(a(i)+b(i))+c(i)", b"y = a(i) + b(i) + c(i)"),
        (b"y=a(i)+(b(i)+c(i))", b"y = a(i) + (b(i) + c(i))"),
        (b"y=a(i)-b(i)-c(i)", b"y = a(i) - b(i) - c(i)"),
        (b"y=a(i)-(b(i)-c(i))", b"y = a(i) - (b(i) - c(i))"),
        (b"y=a(i)-(b(i)*c(i))", b"y = a(i) - b(i) * c(i)"),
        (b"y=a(i)*b(i)*c(i)", b"y = a(i) * b(i) * c(i)"),
        (b"y=(a(i)*b(i))*c(i)", b"y = a(i) * b(i) * c(i)"),
        (b"y=a(i)*(b(i)*c(i))", b"y = a(i) * (b(i) * c(i))"),
        (b"y=(a(i)+b(i))*c(i)", b"y = (a(i) + b(i)) * c(i)"),
        (b"y=a(i)*(b(i)-c(i))", b"y = a(i) * (b(i) - c(i))"),
        (b"y=-a(i)", b"y = -a(i)"),
        (b"y=-a(i)*b(i)", b"y = -a(i) * b(i)"),
        (b"y=-(a(i)*b(i))", b"y = -a(i) * b(i)"),
        (b"y=(-a(i))*b(i)", b"y = (-a(i)) * b(i)"),
        (b"y=a(i)*(-b(i))", b"y = a(i) * (-b(i))"),
        (b"y=-a(i)+b(i)", b"y = -a(i) + b(i)"),
        (b"y=-(a(i)+b(i))", b"y = -(a(i) + b(i))"),
        (b"y=-(-a(i))", b"y = -(-a(i))"),
        (b"y=1+(-2)", b"y = 1 + (-2)"),
        (b"y=((((((((((((((((1))))))))))))))))", b"y = 1"),
        (
            b"y(a,b,c,d,e,f,g,h)=t(a,a,a,a,a,a,a,a)-0",
            b"y(a,b,c,d,e,f,g,h) = t(a,a,a,a,a,a,a,a) - 0",
        ),
    ];
    for (text, wanted) in rows {
        for text in [text, wanted] {
            let mut into = Vec::new(rt.alloc());
            into.push(b'>')?;
            let stmt = read(rt.alloc(), text)?;
            write_stmt(rt.alloc(), &stmt, &mut into)?;
            assert_eq!(rt; &into.as_slice()[..1], b">".as_slice());
            assert_eq!(rt; &into.as_slice()[1..], wanted);
        }
    }
    Ok(())
}

/// The caller of this crate's README.
#[test]
fn a_text_is_made_canonical(rt: HostRuntime) -> Result<(), Fail> {
    let stmt = read_stmt(rt.alloc(), b"y(i)=A(i,j)*(x(j))")?;
    let mut text = Vec::new(rt.alloc());
    write_stmt(rt.alloc(), &stmt, &mut text)?;
    assert_eq!(rt; text.as_slice(), b"y(i) = A(i,j) * x(j)".as_slice());
    Ok(())
}
