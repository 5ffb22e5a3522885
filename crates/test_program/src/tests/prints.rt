use super::{Row, Told, first_wrong, is_told, print, tell};
use std::alloc::Global;
use std::process::ExitCode;

const PRINT: &[&str] = &["clinda", "print"];

// Sources, each with what `print` writes of it and its status.
const ROWS: [Row; 9] = [
    Row {
        source: "real_main(){out(\"x\",-1);}",
        text: "int real_main ( ) {\nout ( \"x\" , - 1 ) ;\n}\n",
        status: 0,
    },
    Row {
        source: "",
        text: "",
        status: 0,
    },
    Row {
        source: "real_main(){@}",
        text: "refused BadByte at 1:13\n",
        status: 2,
    },
    Row {
        source: "#if 1",
        text: "refused BadDirective at 1:1\n",
        status: 2,
    },
    Row {
        source: "real_main(){int x;x=9223372036854775808;}",
        text: "refused WideLiteral at 1:21\n",
        status: 2,
    },
    Row {
        source: "real_main(){if 1}",
        text: "refused Syntax at 1:16\n",
        status: 2,
    },
    Row {
        source: "real_main(){out(\"x",
        text: "refused OpenString at 1:17\n",
        status: 2,
    },
    Row {
        source: "real_main(){/* x",
        text: "refused OpenComment at 1:13\n",
        status: 2,
    },
    Row {
        source: "real_main(){out(\"x\",",
        text: "refused Syntax at 1:21\n",
        status: 2,
    },
];

#[test]
fn sources_are_printed(rt: HostRuntime) {
    assert_eq!(rt; first_wrong(rt.alloc(), PRINT, &ROWS, 4096, 4096), None);
    assert_eq!(rt; first_wrong(rt.alloc(), PRINT, &ROWS, 3, 2), None);
}

// Sources that use every rule of the grammar.
const WHOLE: [&str; 13] = [
    "#include <stdio.h>\n#define N 5\n#define M -'a'\nint g=N,h[3];long big=5L;char c='\\n',d[N];",
    "void f(void){} int g(int a,char b,long c){return a+b;} h(){;} long k(){return;}",
    "real_main(){if(1)out(\"a\");else if(0){}else out(\"b\",'c');}",
    "real_main(){while(1)do{break;}while(0);for(;;)continue;}",
    "real_main(){int i;for(i=0;i<3;i++){--i;++i;i--;i+=1;i-=2;i*=3;}for(f();i;g(i,1))f();}",
    "real_main(){int a[4];a[0]=-1;a[1]++;--a[2];printf(\"%d\\n\",a[0],(1L));f(1,g());}",
    "real_main(){in(\"x\",?v,1);rd(?a[1]);inp(\"x\");rdp(1);eval(f(1),\"s\");}",
    "real_main(){x=(1+2)*3-4/(5%6);y=!(a&&b)||c==d;z=-(-1)-(2-3);w=!!a;}",
    "real_main(){x=1<2<=3;y=1>2>=3;z=1!=2;w=a==(b==c);v=(a||b)&&(c<d)<e;}",
    "real_main(){out(\"a\\n\\t\\r\\\\\\\"'\",'\\'','\"','\\0','\\\\','\\t');out(\"\t\");}",
    "real_main(){x=0x7F+1L+0XfFl+2147483648;}",
    "real_main(){if(inp(\"x\",?v)&&rdp(\"y\"))x=a[b[1]];{int y=2,z;}}",
    "real_main(){if(a)if(b)c();else d();if(a){if(b)c();}else d();}",
];

// Whether what was printed is a text of its own, and is printed as it is.
fn is_printed_again(alloc: Global, source: &str, first: &Told) -> bool {
    match tell(alloc, &print(first.text.as_slice())) {
        Some(second) => {
            first.text.len() > source.len() / 2 && is_told(&second, first.text.as_slice(), 0)
        }
        None => false,
    }
}

fn is_printed_alike(alloc: Global, source: &str) -> bool {
    match tell(alloc, &print(source.as_bytes())) {
        Some(first) => first.code == ExitCode::from(0) && is_printed_again(alloc, source, &first),
        None => false,
    }
}

// The place of the first source that isn't printed again as it was.
fn first_changed(alloc: Global, sources: &[&str]) -> Option<usize> {
    for i in 0..sources.len() {
        if !is_printed_alike(alloc, sources[i]) {
            return Some(i);
        }
    }
    None
}

// What was printed is read again, and printed as it was.
#[test]
fn what_was_printed_is_printed_alike(rt: HostRuntime) {
    assert_eq!(rt; first_changed(rt.alloc(), &WHOLE), None);
}

// Whether a call gives the text of a row, or ends by want of memory and writes nothing.
fn is_whole_or_nothing(alloc: Global, row: &Row) -> bool {
    match tell(alloc, &print(row.source.as_bytes())) {
        Some(told) => { is_told(&told, b"", 8) || is_told(&told, row.text.as_bytes(), row.status) }
        None => true,
    }
}

// Whichever allocation of the call fails: the text is whole, or the status is 8 and nothing is written.
#[test]
fn want_of_memory_of_print_is_told(rt: HostRuntime) {
    assert!(rt; is_whole_or_nothing(rt.alloc(), &ROWS[0]));
}
