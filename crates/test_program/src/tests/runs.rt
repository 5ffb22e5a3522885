use super::{Row, call_of, first_wrong, gives, holds, is_told, seq, tell};
use std::alloc::Global;
use std::process::ExitCode;

const SEQ: &[&str] = &["clinda", "seq", "1"];

// Sources, each with its text and its status.
const ROWS: [Row; 34] = [
    Row {
        source: "real_main(){int v;out(\"x\",1);in(\"x\",?v);}",
        text: "process 0 ended (0) acts 2\nstatus 0 processes 1 acts 2\n",
        status: 0,
    },
    Row {
        source: "real_main(){}",
        text: "process 0 ended (0) acts 0\nstatus 0 processes 1 acts 0\n",
        status: 0,
    },
    Row {
        source: "real_main(){out(\"x\");in(\"x\");}",
        text: "process 0 ended (0) acts 2\nstatus 0 processes 1 acts 2\n",
        status: 0,
    },
    Row {
        source: "real_main(){long l;out(\"x\",1);in(\"x\",?l);}",
        text: "process 0 waiting acts 1\nstatus 7 processes 1 acts 1\n",
        status: 7,
    },
    Row {
        source: "real_main(){out(\"x\");out(\"x\");printf(\"%d %d %d\\n\",inp(\"x\"),inp(\"x\"),inp(\"x\"));}",
        text: "process 0 ended (0) acts 5\n1 1 0\nstatus 0 processes 1 acts 5\n",
        status: 0,
    },
    Row {
        source: "real_main(){out(\"x\");rd(\"x\");in(\"x\");printf(\"%d\\n\",rdp(\"x\"));}",
        text: "process 0 ended (0) acts 4\n0\nstatus 0 processes 1 acts 4\n",
        status: 0,
    },
    Row {
        source: "real_main(){int a,b,i,j;out(\"p\",i,j);in(\"p\",?a,3);in(\"p\",3,?b);}",
        text: "process 0 waiting acts 1\nstatus 7 processes 1 acts 1\n",
        status: 7,
    },
    Row {
        source: "real_main(){out(\"x\");printf(\"%d\\n\",2147483647+1);}",
        text: "process 0 trapped Overflow acts 1\nstatus 3 processes 1 acts 1\n",
        status: 3,
    },
    Row {
        source: "real_main(){int a;out(\"x\");if(a&&inp(\"x\")){}printf(\"%d\\n\",rdp(\"x\"));}",
        text: "process 0 ended (0) acts 2\n1\nstatus 0 processes 1 acts 2\n",
        status: 0,
    },
    Row {
        source: "real_main(){int a;a=1;out(\"x\");if(a&&inp(\"x\")){}printf(\"%d\\n\",rdp(\"x\"));}",
        text: "process 0 ended (0) acts 3\n0\nstatus 0 processes 1 acts 3\n",
        status: 0,
    },
    Row {
        source: "int f(int n){if(n)return f(n-1);return 0;}real_main(){printf(\"%d\\n\",f(254));}",
        text: "process 0 ended (0) acts 0\n0\nstatus 0 processes 1 acts 0\n",
        status: 0,
    },
    Row {
        source: "int f(int n){if(n)return f(n-1);return 0;}real_main(){printf(\"%d\\n\",f(255));}",
        text: "process 0 trapped CallDepth acts 0\nstatus 3 processes 1 acts 0\n",
        status: 3,
    },
    Row {
        source: "real_main(){char c;c=300;out(\"x\",c);printf(\"%d %d\\n\",inp(\"x\",44),inp(\"x\",?c));}",
        text: "process 0 ended (0) acts 3\n0 1\nstatus 0 processes 1 acts 3\n",
        status: 0,
    },
    Row {
        source: "real_main(){int a,b;out(\"q\",1);out(\"q\",2);in(\"q\",?a);rd(\"q\",?b);printf(\"%d %d\\n\",a,b);}",
        text: "process 0 ended (0) acts 4\n1 2\nstatus 0 processes 1 acts 4\n",
        status: 0,
    },
    Row {
        source: "int g[65536];real_main(){}",
        text: "process 0 ended (0) acts 0\nstatus 0 processes 1 acts 0\n",
        status: 0,
    },
    Row {
        source: "int g[65536];real_main(){int x;}",
        text: "process 0 trapped CellLimit acts 0\nstatus 3 processes 1 acts 0\n",
        status: 3,
    },
    Row {
        source: "real_main(){int i,s;for(i=0;i<5;i++)s+=i;printf(\"%d\\n\",s);}",
        text: "process 0 ended (0) acts 0\n10\nstatus 0 processes 1 acts 0\n",
        status: 0,
    },
    Row {
        source: "real_main(){int a[3];a[3]=1;}",
        text: "process 0 trapped IndexRange acts 0\nstatus 3 processes 1 acts 0\n",
        status: 3,
    },
    Row {
        source: "real_main(){char c;c=300;printf(\"%d\\n\",c);}",
        text: "process 0 ended (0) acts 0\n44\nstatus 0 processes 1 acts 0\n",
        status: 0,
    },
    Row {
        source: "real_main(){int z;z=1/z;}",
        text: "process 0 trapped DivideByZero acts 0\nstatus 3 processes 1 acts 0\n",
        status: 3,
    },
    Row {
        source: "int real_main(){return 7;}",
        text: "process 0 ended (7) acts 0\nstatus 0 processes 1 acts 0\n",
        status: 0,
    },
    Row {
        source: "long real_main(void){return 7;}",
        text: "process 0 ended (7L) acts 0\nstatus 0 processes 1 acts 0\n",
        status: 0,
    },
    Row {
        source: "void real_main(){printf(\"a\\nb\");}",
        text: "process 0 ended (0) acts 0\na\nb\nstatus 0 processes 1 acts 0\n",
        status: 0,
    },
    Row {
        source: "real_main(){in(\"x\");}",
        text: "process 0 waiting acts 0\nstatus 7 processes 1 acts 0\n",
        status: 7,
    },
    Row {
        source: " real_main ( )\n{ int a , b ; out ( \"x\" , 0 ) ;\tin(\"x\",?a);in(\"x\",?b); }\r\n",
        text: "process 0 waiting acts 2\nstatus 7 processes 1 acts 2\n",
        status: 7,
    },
    Row {
        source: "real_main(){int a,b;printf(\"%d\",b);out(1,2);in(?a,?a);printf(\"%d\\n\",a);in(3);}",
        text: "process 0 waiting acts 2\n02\nstatus 7 processes 1 acts 2\n",
        status: 7,
    },
    Row {
        source: "real_main(){out(\"\");in(\"\");}",
        text: "process 0 ended (0) acts 2\nstatus 0 processes 1 acts 2\n",
        status: 0,
    },
    Row {
        source: "real_main(){int v;out(1,2,3,4,5,6,7,8,9,10,11,12,13,14,15,16);in(1,2,3,4,5,6,7,8,9,10,11,12,13,14,15,?v);printf(\"%d\",v);}",
        text: "process 0 ended (0) acts 2\n16\nstatus 0 processes 1 acts 2\n",
        status: 0,
    },
    Row {
        source: "#define N 3\nint g=1;long f(char c){g+=c;return g;}real_main(){int i;for(i=0;i<N;i++)out(\"k\",f(i));long a;in(\"k\",?a);printf(\"%ld %d\\n\",a,g);}",
        text: "process 0 ended (0) acts 4\n1 4\nstatus 0 processes 1 acts 4\n",
        status: 0,
    },
    Row {
        source: "real_main(){int v;\n/* a comment */ inp(\"x\",?v); // another\nprintf(\"%d%c\\n\",v,65+v);}",
        text: "process 0 ended (0) acts 1\n0A\nstatus 0 processes 1 acts 1\n",
        status: 0,
    },
    Row {
        source: "real_main(){printf(\"%d %d %d\\n\",-7/2,-7%2,7%-2);}",
        text: "process 0 ended (0) acts 0\n-3 -1 1\nstatus 0 processes 1 acts 0\n",
        status: 0,
    },
    Row {
        source: "real_main(){int a;a=-2147483647-1;printf(\"%d\",a%-1);}",
        text: "process 0 trapped Overflow acts 0\nstatus 3 processes 1 acts 0\n",
        status: 3,
    },
    Row {
        source: "real_main(){int a;long l;char c;a=-2147483647-1;l=a/-1L;c=-1;printf(\"%ld %d %d\\n\",l,c*c,-1<c);}",
        text: "process 0 ended (0) acts 0\n2147483648 65025 1\nstatus 0 processes 1 acts 0\n",
        status: 0,
    },
    Row {
        source: "int a=1;real_main(){int a;a=2;{int a;a=3;}printf(\"%d\\n\",a);}",
        text: "process 0 ended (0) acts 0\n2\nstatus 0 processes 1 acts 0\n",
        status: 0,
    },
];

// A body that always answers want of memory is refused here, since no clause can do so.
#[test]
fn always_out_of_memory(rt: HostRuntime) {
    assert!(rt; holds(rt.alloc(), SEQ, &ROWS[0], 4096, 4096));
}

#[test]
fn sources_give_their_texts(rt: HostRuntime) {
    assert_eq!(rt; first_wrong(rt.alloc(), SEQ, &ROWS, 4096, 4096), None);
}

#[test]
fn no_piece_changes_a_text(rt: HostRuntime) {
    assert_eq!(rt; first_wrong(rt.alloc(), SEQ, &ROWS, 1, 5), None);
    assert_eq!(rt; first_wrong(rt.alloc(), SEQ, &ROWS, 7, 1), None);
}

// Whether a call gives the text of a row, or ends by want of memory.
fn is_whole_or_unfinished(alloc: Global, row: &Row) -> bool {
    match tell(alloc, &seq(row.source.as_bytes())) {
        Some(told) => {
            told.code == ExitCode::from(8) || is_told(&told, row.text.as_bytes(), row.status)
        }
        None => true,
    }
}

// Whichever allocation of the call fails: the text is whole, or the status is 8.
#[test]
fn want_of_memory_is_told(rt: HostRuntime) {
    assert!(rt; is_whole_or_unfinished(rt.alloc(), &ROWS[0]));
}

// The ticks that may be taken are those that the words say.
#[test]
fn the_words_say_the_ticks(rt: HostRuntime) {
    let endless = call_of(
        &["clinda", "seq", "1", "steps=5"],
        b"real_main(){while(1){}}",
    );
    let trapped = b"process 0 trapped StepLimit acts 0\nstatus 3 processes 1 acts 0\n";
    assert!(rt; gives(rt.alloc(), &endless, trapped, 3));
    let short = call_of(&["clinda", "seq", "1", "steps=0"], b"real_main(){}");
    let ended = b"process 0 ended (0) acts 0\nstatus 0 processes 1 acts 0\n";
    assert!(rt; gives(rt.alloc(), &short, ended, 0));
}
