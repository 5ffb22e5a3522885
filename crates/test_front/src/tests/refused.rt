// Faults of sources: where each is told, and which.

use super::Verdict::{Bytes, Syntax, Typed, Types};
use super::{Row, first_wrong};
use cl_ast::LexKind;
use cl_types::TypeKind;

// Sources whose bytes aren't tokens.
const NO_TOKENS: &[Row] = &[
    (b"real_main(){@}", Bytes(12, LexKind::BadByte)),
    (b"#if 1", Bytes(0, LexKind::BadDirective)),
    (b"x=9223372036854775808;", Bytes(2, LexKind::WideLiteral)),
    (
        b"0x7fffffffffffffff 0x8000000000000000",
        Bytes(19, LexKind::WideLiteral),
    ),
    (b"9999999999999999999x", Bytes(0, LexKind::WideLiteral)),
    (b"\"a\\q\"", Bytes(3, LexKind::BadByte)),
    (b"\"a\n", Bytes(0, LexKind::OpenString)),
    (b"\"a\\", Bytes(0, LexKind::OpenString)),
    (b"\"a\\\n\"", Bytes(0, LexKind::OpenString)),
    (b"\"\\0\"", Bytes(2, LexKind::BadByte)),
    (b"''", Bytes(1, LexKind::BadByte)),
    (b"'ab'", Bytes(2, LexKind::BadByte)),
    (b"'a\\'", Bytes(2, LexKind::BadByte)),
    (b"'a\n", Bytes(0, LexKind::OpenString)),
    (b"'\\", Bytes(0, LexKind::OpenString)),
    (b"a&&&b", Bytes(3, LexKind::BadByte)),
    (b"00", Bytes(1, LexKind::BadByte)),
    (b"12a", Bytes(2, LexKind::BadByte)),
    (b"5L5", Bytes(2, LexKind::BadByte)),
    (b"0x", Bytes(2, LexKind::BadByte)),
    (b"0xg", Bytes(2, LexKind::BadByte)),
    (b"#define N 5 6", Bytes(0, LexKind::BadDirective)),
    (b"#define N 5x", Bytes(0, LexKind::BadDirective)),
    (b"#define N 0x", Bytes(0, LexKind::BadDirective)),
    (b"#define N \"a\"", Bytes(0, LexKind::BadDirective)),
    (b"#define N 'ab'", Bytes(0, LexKind::BadDirective)),
    (b"#define N 5 /*\n*/ x", Bytes(0, LexKind::BadDirective)),
    (b"#define N - -5", Bytes(0, LexKind::BadDirective)),
    (b"#define int 5", Bytes(0, LexKind::BadDirective)),
    (
        b"#define N 9223372036854775808",
        Bytes(10, LexKind::WideLiteral),
    ),
    (b"#define N 'a\n", Bytes(10, LexKind::OpenString)),
    (b"#define N \"a", Bytes(10, LexKind::OpenString)),
    (b"#define N 5 /**/ /* x", Bytes(17, LexKind::OpenComment)),
    (b"x #define N 5", Bytes(2, LexKind::BadByte)),
    (b"\x0c#define N 5", Bytes(1, LexKind::BadByte)),
    (b"/* */#define N 5", Bytes(5, LexKind::BadByte)),
    (b"/* x", Bytes(0, LexKind::OpenComment)),
    (b"/*/", Bytes(0, LexKind::OpenComment)),
    (b"\0", Bytes(0, LexKind::BadByte)),
];

// Sources whose tokens are no tree.
const NO_TREE: &[Row] = &[
    (b"f(){a+++b;}", Syntax(6)),
    (b"real_main(){if 1}", Syntax(5)),
    (b"real_main(){out(\"x\",", Syntax(8)),
    (b"real_main(){int a[2]=1;}", Syntax(9)),
    (b"real_main(){a;}", Syntax(5)),
    (b"int f(int,int){}", Syntax(4)),
    (b"void x;", Syntax(2)),
    (b"real_main(){for(int i;;){}}", Syntax(6)),
    (b"real_main(){x=1+;}", Syntax(8)),
    (b"real_main(){else;}", Syntax(4)),
    (b"else", Syntax(0)),
    (b"real_main(){x=a?b;}", Syntax(7)),
    (b"real_main(){g(?b);}", Syntax(6)),
    (b"real_main(){out();}", Syntax(6)),
    (b"real_main(){x=out(1);}", Syntax(6)),
    (b"real_main(){x=eval(1);}", Syntax(6)),
    (b"real_main(){printf(1);}", Syntax(6)),
    (b"real_main(){printf(\"x\",\"y\");}", Syntax(8)),
    (b"real_main(){x=\"y\";}", Syntax(6)),
    (b"real_main(){x==1;}", Syntax(5)),
    (b"real_main(){1=x;}", Syntax(4)),
    (b"real_main(){x=1=2;}", Syntax(7)),
    (b"real_main(){x=y++;}", Syntax(7)),
    (b"real_main(){x=+y;}", Syntax(6)),
    (b"real_main(){(x)=1;}", Syntax(4)),
    (b"real_main(){if(a)int b;}", Syntax(8)),
    (b"real_main(){do;while(a)}", Syntax(10)),
    (b"real_main(){for(;){}}", Syntax(7)),
    (b"real_main(){for(;;)}", Syntax(9)),
    (b"real_main(){int a[];}", Syntax(7)),
    (b"real_main(){int a['x'];}", Syntax(7)),
    (b"real_main(){int a[1+1];}", Syntax(8)),
    (b"real_main(){void a;}", Syntax(4)),
    (b"real_main(){}}", Syntax(5)),
    (b"real_main(){{}", Syntax(6)),
    (b"real_main()", Syntax(3)),
    (b"real_main();", Syntax(3)),
    (b"int real_main(void a){}", Syntax(4)),
    (b"int a,f(){}", Syntax(4)),
];

// Sources whose trees have faults.
const FAULTY: &[Row] = &[
    (b"", Types(0, TypeKind::NoMain)),
    (b"int real_main(int a){}", Types(0, TypeKind::NoMain)),
    (b"int real_main;", Types(0, TypeKind::NoMain)),
    (b"real_main(){x=1;}", Types(12, TypeKind::UnknownName)),
    (
        b"real_main(){out(\"x\",y);}",
        Types(20, TypeKind::UnknownName),
    ),
    (
        b"real_main(){in(\"x\",?y);}",
        Types(20, TypeKind::UnknownName),
    ),
    (b"real_main(){f();}", Types(12, TypeKind::UnknownName)),
    (
        b"real_main(){int a[2];a[i]=1;}",
        Types(23, TypeKind::UnknownName),
    ),
    (
        b"real_main(){printf(\"%d\",q);}",
        Types(24, TypeKind::UnknownName),
    ),
    (
        b"real_main(){{int y;}y=1;}",
        Types(20, TypeKind::UnknownName),
    ),
    (
        b"real_main(){for(;;){int y;}y=1;}",
        Types(27, TypeKind::UnknownName),
    ),
    (b"real_main(){int y=y;}", Types(18, TypeKind::UnknownName)),
    (b"int g=g;real_main(){}", Types(6, TypeKind::UnknownName)),
    (b"real_main(){int a=b,b;}", Types(18, TypeKind::UnknownName)),
    (b"real_main(){g=1;}int g;", Types(12, TypeKind::UnknownName)),
    (
        b"real_main(){int x=C;}\n#define C 1\n",
        Types(18, TypeKind::UnknownName),
    ),
    (
        b"int f(int a){}real_main(){a=1;}",
        Types(26, TypeKind::UnknownName),
    ),
    (
        b"real_main(){int a;int a;}",
        Types(22, TypeKind::TwiceDeclared),
    ),
    (
        b"int f(int a){int a;}real_main(){}",
        Types(17, TypeKind::TwiceDeclared),
    ),
    (
        b"int f(int a,int a){}real_main(){}",
        Types(16, TypeKind::TwiceDeclared),
    ),
    (
        b"int a;long a;real_main(){}",
        Types(11, TypeKind::TwiceDeclared),
    ),
    (
        b"int f;int f(){}real_main(){}",
        Types(10, TypeKind::TwiceDeclared),
    ),
    (
        b"int f(){}int f(){}real_main(){}",
        Types(13, TypeKind::TwiceDeclared),
    ),
    (
        b"#define C 1\nint C;real_main(){}",
        Types(16, TypeKind::TwiceDeclared),
    ),
    (b"int a,a;real_main(){}", Types(6, TypeKind::TwiceDeclared)),
    (
        b"real_main(){int a[2];out(\"x\",a);}",
        Types(29, TypeKind::WrongType),
    ),
    (
        b"real_main(){int x;x=real_main;}",
        Types(20, TypeKind::WrongType),
    ),
    (
        b"void f(){}real_main(){int x;x=f();}",
        Types(30, TypeKind::WrongType),
    ),
    (
        b"void f(){}real_main(){out(\"x\",f());}",
        Types(30, TypeKind::WrongType),
    ),
    (
        b"void f(){}real_main(){eval(\"x\",f());}",
        Types(31, TypeKind::WrongType),
    ),
    (
        b"void f(){}real_main(){if(f());}",
        Types(25, TypeKind::WrongType),
    ),
    (
        b"void f(){}real_main(){int x;x=1+f();}",
        Types(32, TypeKind::WrongType),
    ),
    (
        b"void f(){}real_main(){printf(\"%d\",f());}",
        Types(34, TypeKind::WrongType),
    ),
    (
        b"void f(){}int g(int a){}real_main(){g(f());}",
        Types(38, TypeKind::WrongType),
    ),
    (
        b"void f(){return 1;}real_main(){}",
        Types(9, TypeKind::WrongType),
    ),
    (
        b"void f(){{while(1)return f();}}real_main(){}",
        Types(18, TypeKind::WrongType),
    ),
    (b"real_main(){real_main=1;}", Types(12, TypeKind::WrongType)),
    (
        b"#define C 3\nreal_main(){C=1;}",
        Types(24, TypeKind::WrongType),
    ),
    (
        b"#define C 3\nreal_main(){in(?C);}",
        Types(28, TypeKind::WrongType),
    ),
    (
        b"int a[2];real_main(){a=1;}",
        Types(21, TypeKind::WrongType),
    ),
    (
        b"int a[2];real_main(){a++;}",
        Types(21, TypeKind::WrongType),
    ),
    (
        b"int a;real_main(){a[0]=1;}",
        Types(18, TypeKind::WrongType),
    ),
    (
        b"#define C 3\nreal_main(){int x;x=C[0];}",
        Types(32, TypeKind::WrongType),
    ),
    (
        b"real_main(){real_main[0]=1;}",
        Types(12, TypeKind::WrongType),
    ),
    (b"int a;real_main(){a();}", Types(18, TypeKind::WrongType)),
    (
        b"#define C 3\nreal_main(){C();}",
        Types(24, TypeKind::WrongType),
    ),
    (
        b"int f(int a){return a;}real_main(){f();}",
        Types(35, TypeKind::WrongCount),
    ),
    (
        b"real_main(){real_main(1);}",
        Types(12, TypeKind::WrongCount),
    ),
    (
        b"int f(int a,int b){}real_main(){int x;x=f(1);}",
        Types(40, TypeKind::WrongCount),
    ),
    (b"int a=1,b=a;real_main(){}", Types(10, TypeKind::WrongType)),
    (b"int g=(1+2);real_main(){}", Types(6, TypeKind::WrongType)),
    (b"int g=-(1+2);real_main(){}", Types(6, TypeKind::WrongType)),
    (b"int g=!1;real_main(){}", Types(6, TypeKind::WrongType)),
    (
        b"int g=f();int f(){}real_main(){}",
        Types(6, TypeKind::WrongType),
    ),
    (
        b"int g=2147483648;real_main(){}",
        Types(6, TypeKind::WrongType),
    ),
    (
        b"int g=-2147483649;real_main(){}",
        Types(6, TypeKind::WrongType),
    ),
    (
        b"#define C 2147483648\nint g=C;real_main(){}",
        Types(27, TypeKind::WrongType),
    ),
    (b"int g=1+h;real_main(){}", Types(8, TypeKind::UnknownName)),
    (
        b"int a[2];int g=a;real_main(){}",
        Types(15, TypeKind::WrongType),
    ),
    (b"int a[0];real_main(){}", Types(6, TypeKind::WrongType)),
    (b"int a[65537];real_main(){}", Types(6, TypeKind::WrongType)),
    (
        b"real_main(){int b[65537];}",
        Types(18, TypeKind::WrongType),
    ),
    (
        b"#define N -1\nint a[N];real_main(){}",
        Types(19, TypeKind::WrongType),
    ),
    (
        b"#define N 0\nint a[N];real_main(){}",
        Types(18, TypeKind::WrongType),
    ),
    (
        b"int n;int a[n];real_main(){}",
        Types(12, TypeKind::WrongType),
    ),
    (b"int a[n];real_main(){}", Types(6, TypeKind::UnknownName)),
    (b"int a[a];real_main(){}", Types(6, TypeKind::UnknownName)),
    (
        b"real_main(){int n[real_main];}",
        Types(18, TypeKind::WrongType),
    ),
    (
        b"real_main(){printf(\"%d\",(5L));}",
        Types(24, TypeKind::WrongType),
    ),
    (
        b"real_main(){printf(\"%c\",5L);}",
        Types(24, TypeKind::WrongType),
    ),
    (
        b"real_main(){printf(\"%ld\",5);}",
        Types(25, TypeKind::WrongType),
    ),
    (
        b"char c;real_main(){printf(\"%ld\",c);}",
        Types(32, TypeKind::WrongType),
    ),
    (
        b"real_main(){printf(\"%d%ld\",1,-2);}",
        Types(29, TypeKind::WrongType),
    ),
    (
        b"real_main(){printf(\"%d\");}",
        Types(12, TypeKind::WrongCount),
    ),
    (
        b"real_main(){printf(\"\",1);}",
        Types(12, TypeKind::WrongCount),
    ),
    (
        b"real_main(){printf(\"%%\",1);}",
        Types(12, TypeKind::WrongCount),
    ),
    (
        b"real_main(){printf(\"%x\",1);}",
        Types(19, TypeKind::BadFormat),
    ),
    (
        b"real_main(){printf(\"%x\",q);}",
        Types(19, TypeKind::BadFormat),
    ),
    (
        b"real_main(){printf(\"%\");}",
        Types(19, TypeKind::BadFormat),
    ),
    (
        b"real_main(){printf(\"%l\",1);}",
        Types(19, TypeKind::BadFormat),
    ),
    (
        b"real_main(){printf(\"%d%l%\",5L);}",
        Types(19, TypeKind::BadFormat),
    ),
    (
        b"real_main(){printf(\"%ld\",1<q);}",
        Types(25, TypeKind::WrongType),
    ),
    (
        b"real_main(){printf(\"%ld\",5L+q);}",
        Types(28, TypeKind::UnknownName),
    ),
    (
        b"real_main(){out(1,2,3,4,5,6,7,8,9,1,2,3,4,5,6,7,8);}",
        Types(12, TypeKind::WrongCount),
    ),
    (
        b"real_main(){if(inp(1,2,3,4,5,6,7,8,9,1,2,3,4,5,6,7,8));}",
        Types(15, TypeKind::WrongCount),
    ),
    (
        b"real_main(){int y;out(\"x\",?y);}",
        Types(26, TypeKind::BadField),
    ),
    (
        b"real_main(){int i;eval(?i);}",
        Types(23, TypeKind::BadField),
    ),
    (b"real_main(){break;}", Types(12, TypeKind::NoLoop)),
    (b"real_main(){while(1);break;}", Types(21, TypeKind::NoLoop)),
    (b"real_main(){if(1)continue;}", Types(17, TypeKind::NoLoop)),
    (
        b"real_main(){while(1){}{break;}}",
        Types(23, TypeKind::NoLoop),
    ),
    (
        b"real_main(){for(;;);continue;}",
        Types(20, TypeKind::NoLoop),
    ),
    (
        b"f(){while(1);}real_main(){break;}",
        Types(26, TypeKind::NoLoop),
    ),
    (b"int g=g;", Types(0, TypeKind::NoMain)),
    (b"f(){break;}", Types(0, TypeKind::NoMain)),
    (
        b"void f(int a){}real_main(){int x;x=f();}",
        Types(35, TypeKind::WrongType),
    ),
    (
        b"void f(){x=1;}real_main(){y=1;}",
        Types(9, TypeKind::UnknownName),
    ),
    (
        b"real_main(){out(\"x\",y);break;}",
        Types(20, TypeKind::UnknownName),
    ),
    (
        b"int f(){}int f(){}real_main(){f(1);}",
        Types(13, TypeKind::TwiceDeclared),
    ),
    (
        b"int x;real_main(){out(1,2,3,4,5,6,7,8,9,1,2,3,4,5,6,7,?x);}",
        Types(18, TypeKind::WrongCount),
    ),
    (
        b"real_main(){printf(\"%d\",1,q);}",
        Types(12, TypeKind::WrongCount),
    ),
    (
        b"real_main(){int a,a[0];}",
        Types(18, TypeKind::TwiceDeclared),
    ),
];

// Sources without faults.
const FAULTLESS: &[Row] = &[
    (b"real_main(){}", Typed),
    (b"real_main(void){}", Typed),
    (b"void real_main(){}", Typed),
    (b"real_main(){}int g;", Typed),
    (b"int f(int a){{int a;}}real_main(){}", Typed),
    (
        b"real_main(){int y;{long y;printf(\"%ld\",y);}printf(\"%d\",y);}",
        Typed,
    ),
    (
        b"long y;int f(int y){printf(\"%d\",y);}real_main(){printf(\"%ld\",y);}",
        Typed,
    ),
    (b"real_main(){f();}void f(){}", Typed),
    (b"int g;real_main(){g=1;}", Typed),
    (b"int g;real_main(){int h=g;}", Typed),
    (b"int f(){}real_main(){int f;f=1;}", Typed),
    (b"#define C 1\nreal_main(){int C[2];C[0]=C[1];}", Typed),
    (b"real_main(){int a;for(;;){int a;}if(a)a=1;}", Typed),
    (
        b"void f(){return;}int g(){return;}real_main(){return 1;}",
        Typed,
    ),
    (b"void f(){}real_main(){f();}", Typed),
    (b"int g=-(-(2)),h=(7);real_main(){}", Typed),
    (b"int g=-2147483648,h=2147483647;real_main(){}", Typed),
    (
        b"#define C -3\nchar g=C;long h=-C,i=9223372036854775807;real_main(){}",
        Typed,
    ),
    (b"char a='a';long b=-'b';char c=300;real_main(){}", Typed),
    (b"int a[1];real_main(){int b[65536];}", Typed),
    (b"#define N 'a'\nint a[N];real_main(){int b[N];}", Typed),
    (
        b"int a[2];char c;long l;real_main(){a[c]=l;a[l]=c;while(l);if(c);}",
        Typed,
    ),
    (
        b"int f(long a,char b){}real_main(){int x;x=f(1,2L)+f(x,x);}",
        Typed,
    ),
    (
        b"char c;real_main(){printf(\"%d%c%d%c%ld%%\",1,2,c,c,3L);}",
        Typed,
    ),
    (
        b"char c;long l;real_main(){printf(\"%ld%ld%d%d\",1+l,-l,-c,c+c);}",
        Typed,
    ),
    (
        b"long l;real_main(){printf(\"%d%d%d%d%d%d\",l<l,l&&l,!l,inp(l),rdp(l),l==l);}",
        Typed,
    ),
    (
        b"char f(){}long g(){}real_main(){printf(\"%d%c%ld\",f(),'a',g());}",
        Typed,
    ),
    (
        b"long a[2];real_main(){printf(\"%ld%ld%ld\",a[1],1*a[0],2147483648);}",
        Typed,
    ),
    (b"real_main(){out(1,2,3,4,5,6,7,8,9,1,2,3,4,5,6,7);}", Typed),
    (
        b"real_main(){int i;in(?i);rd(?i);if(inp(?i)||rdp(?i));}",
        Typed,
    ),
    (
        b"int f(){}int a[3];real_main(){eval(\"x\",f());out(\"x\",a[1]);in(\"x\",?a[2]);}",
        Typed,
    ),
    (
        b"real_main(){while(1){break;}do continue;while(1);for(;;)if(1)break;}",
        Typed,
    ),
    (b"real_main(){for(;;){{if(1)continue;else break;}}}", Typed),
];

#[test]
fn the_first_fault_is_told(rt: HostRuntime) {
    let alloc = rt.alloc();
    assert_eq!(rt; first_wrong(alloc, NO_TOKENS), None);
    assert_eq!(rt; first_wrong(alloc, NO_TREE), None);
    assert_eq!(rt; first_wrong(alloc, FAULTY), None);
    assert_eq!(rt; first_wrong(alloc, FAULTLESS), None);
}
