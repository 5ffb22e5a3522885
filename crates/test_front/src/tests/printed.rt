// The printed text of sources.

use super::read;
use cl_ast::Unit;
use cl_print::print;
use std::alloc::Global;

// Sources of one item each, which use every rule of the grammar and each of its choices. Nothing in them is left
// out or spelled otherwise than it is printed, so that they are their own texts but for white space.
const ITEMS: &[&[u8]] = &[
    b"#define a 1\n",
    b"#define a -1L\n",
    b"#define a 'x'\n",
    b"int a;",
    b"long a=1+b,c[3],d;",
    b"char a[8],b[n],c[1L];",
    b"int f(){}",
    b"void f(){}",
    b"int f(int a){}",
    b"char f(long a,char b){;}",
    b"int f(){long a=1,b[4];char c;{}{;}}",
    b"int f(){a=1;a[1]=2;a+=3;a-=4;a*=5;}",
    b"int f(){a++;a[1]--;}",
    b"int f(){g();g(1);g(1,a);}",
    b"int f(){out(\"x\");in(\"x\",?a);rd(?a[1],2);}",
    b"int f(){inp(1);rdp(1);eval(g(1),2);}",
    b"int f(){printf(\"x\");printf(\"%d%d\",a,1);}",
    b"int f(){if(a)a=1;}",
    b"int f(){if(a){}else{}if(a);else if(b);else;}",
    b"int f(){if(a)if(b)x=1;else x=2;}",
    b"int f(){if(a){if(b)x=1;}else x=2;}",
    b"int f(){while(a){}while(a)a++;}",
    b"int f(){do{}while(a);do a--;while(a);}",
    b"int f(){for(;;){}for(a=1;a<9;a++)b();}",
    b"int f(){for(;;);for(g();;h())out(1);}",
    b"int f(){for(;a;){break;continue;}}",
    b"int f(){return;return a;}",
    b"int f(){a=b||c&&d||e;}",
    b"int f(){a=b==c!=d;}",
    b"int f(){a=b<c<=d>e>=g;}",
    b"int f(){a=b+c-d*e/g%h;}",
    b"int f(){a=-b;a=!c;a=-!-1;}",
    b"int f(){a='x';a=1L;a=b[1];a=g();}",
    b"int f(){a=inp(\"x\",?b)+rdp(1);}",
    b"int f(){x=a-b-c;x=a-(b-c);x=(a-b)-c;x=(a+b)*c;}",
];

// Whether two texts are one but for their blanks and line ends.
fn are_alike(printed: &[u8], source: &[u8]) -> bool {
    let mut rest = source;
    for byte in printed {
        if !is_white(*byte) {
            rest = rest.trim_ascii_start();
            let [next, behind @ ..] = rest else {
                return false;
            };
            if next != byte {
                return false;
            }
            rest = behind;
        }
    }
    rest.trim_ascii_start().is_empty()
}

fn is_white(byte: u8) -> bool {
    byte == b' ' || byte == b'\n'
}

// Whether the tree is printed as this text.
fn shows(alloc: Global, unit: &Unit, text: &[u8], is_exact: bool) -> bool {
    match print(alloc, unit) {
        Ok(found) => {
            if is_exact {
                found.as_slice() == text
            } else {
                are_alike(found.as_slice(), text)
            }
        }
        Err(_) => false,
    }
}

// Whether the source is printed as itself but for white space.
fn is_itself(alloc: Global, source: &[u8]) -> bool {
    match read(alloc, source) {
        Ok(unit) => shows(alloc, &unit, source, false),
        Err(_) => false,
    }
}

// Whether the source is printed as this text.
fn is_printed(alloc: Global, source: &[u8], text: &[u8]) -> bool {
    match read(alloc, source) {
        Ok(unit) => shows(alloc, &unit, text, true),
        Err(_) => false,
    }
}

// Sources, and their printed texts.
const TEXTS: &[(&[u8], &[u8])] = &[
    (b"", b""),
    (
        b"f(void){++x;--x;g((1),((a)));}",
        b"int f ( ) {\nx ++ ;\nx -- ;\ng ( 1 , a ) ;\n}\n",
    ),
    (
        b"f(){g(2147483647,2147483648,1L,0x7FFFFFFF,0x80000000,0,0x7fffffffffffffff,0XaBl);}",
        b"int f ( ) {\ng ( 2147483647 , 2147483648L , 1L , 2147483647 , 2147483648L , 0 , 9223372036854775807L , 171L ) ;\n}\n",
    ),
    (
        b"f(){g('\\0','\"','\\'','\\n','\\t');in(\"a'\\t\\\\\\\"\\n\xff\");}",
        b"int f ( ) {\ng ( '\\0' , '\"' , '\\'' , '\\n' , '\\t' ) ;\nin ( \"a'\t\\\\\\\"\\n\xff\" ) ;\n}\n",
    ),
    (
        b"#define N -5 // c\n \t# define\rM\x0b-\t5/* a\n */ /**/ \n#include /* \"\n#define L 'a'\n",
        b"#define N -5\n#define M -5\n#define L 'a'\n",
    ),
    (
        b"int/* */v[N]//\n;void f(int p,char q){char c='a';}",
        b"int v [ N ] ;\nvoid f ( int p , char q ) {\nchar c = 'a' ;\n}\n",
    ),
    (
        b"f(){x=((1+2)*3)-(2-3);x=- -1;x=!(1<2)&&3L;x=h(v[1||0],2)/2;x=-2147483648;}",
        b"int f ( ) {\nx = ( 1 + 2 ) * 3 - ( 2 - 3 ) ;\nx = - - 1 ;\nx = ! ( 1 < 2 ) && 3L ;\nx = h ( v [ 1 || 0 ] , 2 ) / 2 ;\nx = - 2147483648L ;\n}\n",
    ),
    (
        b"f(){while(1)if(a){a++;}else;for(i=0;i;i--)continue;do break;while(0);out(\"x\",-1);return 0;}",
        b"int f ( ) {\nwhile ( 1 ) if ( a ) {\na ++ ;\n}\nelse ;\nfor ( i = 0 ;\ni ;\ni -- ) continue ;\ndo break ;\nwhile ( 0 ) ;\nout ( \"x\" , - 1 ) ;\nreturn 0 ;\n}\n",
    ),
];

#[test]
fn sources_are_printed(rt: HostRuntime) {
    for source in ITEMS {
        assert!(rt; is_itself(rt.alloc(), source), "{source:?}");
    }
    for (source, text) in TEXTS {
        assert!(rt; is_printed(rt.alloc(), source, text), "{source:?}");
    }
}
