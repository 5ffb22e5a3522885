use super::{Row, first_wrong};

const SEQ: &[&str] = &["clinda", "seq", "1"];

// Sources that no run takes, each with its text.
const ROWS: [Row; 23] = [
    Row {
        source: "",
        text: "refused NoMain at 1:1\n",
        status: 2,
    },
    Row {
        source: "real_main(){@}",
        text: "refused BadByte at 1:13\n",
        status: 2,
    },
    Row {
        source: "#if 1",
        text: "refused BadDirective at 1:1\n",
        status: 2,
    },
    Row {
        source: "real_main(){int x;x=9223372036854775808;}",
        text: "refused WideLiteral at 1:21\n",
        status: 2,
    },
    Row {
        source: "real_main(){out(\"x",
        text: "refused OpenString at 1:17\n",
        status: 2,
    },
    Row {
        source: "real_main(){/* x",
        text: "refused OpenComment at 1:13\n",
        status: 2,
    },
    Row {
        source: "real_main(){out(\"x\",",
        text: "refused Syntax at 1:21\n",
        status: 2,
    },
    Row {
        source: "real_main(){if 1}",
        text: "refused Syntax at 1:16\n",
        status: 2,
    },
    Row {
        source: "real_main(int a){}",
        text: "refused NoMain at 1:1\n",
        status: 2,
    },
    Row {
        source: "real_main(){x=1;}",
        text: "refused UnknownName at 1:13\n",
        status: 2,
    },
    Row {
        source: "real_main(){out(\"x\",y);}",
        text: "refused UnknownName at 1:21\n",
        status: 2,
    },
    Row {
        source: "real_main(){\nint v;in(\"x\",?w);}",
        text: "refused UnknownName at 2:15\n",
        status: 2,
    },
    Row {
        source: "real_main(){int a;int a;}",
        text: "refused TwiceDeclared at 1:23\n",
        status: 2,
    },
    Row {
        source: "real_main(){int a[2];out(\"x\",a);}",
        text: "refused WrongType at 1:30\n",
        status: 2,
    },
    Row {
        source: "int f(int a){return a;}real_main(){f();}",
        text: "refused WrongCount at 1:36\n",
        status: 2,
    },
    Row {
        source: "real_main(){printf(\"%x\",1);}",
        text: "refused BadFormat at 1:20\n",
        status: 2,
    },
    Row {
        source: "real_main(){int y;out(\"x\",?y);}",
        text: "refused BadField at 1:27\n",
        status: 2,
    },
    Row {
        source: "real_main(){break;}",
        text: "refused NoLoop at 1:13\n",
        status: 2,
    },
    Row {
        source: "int f(){return 7;}real_main(){eval(\"e\",f());}",
        text: "refused NotBuilt at 1:31\n",
        status: 2,
    },
    Row {
        source: "int f(){return 7;}real_main(){\n out(\"x\");if(0)eval(\"e\",f());eval(\"e\",f());}",
        text: "refused NotBuilt at 2:16\n",
        status: 2,
    },
    Row {
        source: "int f(){return 7;}real_main(){eval(\"e\",f());x=1;}",
        text: "refused UnknownName at 1:45\n",
        status: 2,
    },
    Row {
        source: "real_main(){x=1;}@",
        text: "refused BadByte at 1:18\n",
        status: 2,
    },
    Row {
        source: "real_main(){x=1;}}",
        text: "refused Syntax at 1:18\n",
        status: 2,
    },
];

#[test]
fn sources_are_refused(rt: HostRuntime) {
    assert_eq!(rt; first_wrong(rt.alloc(), SEQ, &ROWS, 3, 2), None);
}
