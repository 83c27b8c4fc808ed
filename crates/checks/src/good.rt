use sheets::rewrite;
use std::test::Fail;

// A sheet, and what is written of it.
#[derive(Clone, Copy)]
struct Case {
    sheet: &'static [u8],
    clean: &'static [u8],
}

const GOOD: [Case; 30] = [
    Case {
        sheet: b"s\t0\t0\ne\n",
        clean: b"s\t0\t0\ne\n",
    },
    Case {
        sheet: b"s\t1\t0\ne\n",
        clean: b"s\t1\t0\ne\n",
    },
    Case {
        sheet: b"s\t4\t0\ne\n",
        clean: b"s\t4\t0\ne\n",
    },
    Case {
        sheet: b"s\t1024\t0\ne\n",
        clean: b"s\t1024\t0\ne\n",
    },
    Case {
        sheet: b"s\t2\t1\np\t0\t1\ne\n",
        clean: b"s\t2\t1\np\t0\t1\ne\n",
    },
    Case {
        sheet: b"s\t1024\t1\np\t1022\t1023\ne\n",
        clean: b"s\t1024\t1\np\t1022\t1023\ne\n",
    },
    Case {
        sheet: b"s\t1024\t2\np\t0\t1\np\t0\t1023\ne\n",
        clean: b"s\t1024\t2\np\t0\t1\np\t0\t1023\ne\n",
    },
    Case {
        sheet: b"s\t1024\t3\np\t0\t1023\np\t1\t2\np\t1022\t1023\ne\n",
        clean: b"s\t1024\t3\np\t0\t1023\np\t1\t2\np\t1022\t1023\ne\n",
    },
    Case {
        sheet: b"s\t4\t4\np\t0\t1\np\t0\t3\np\t1\t2\np\t2\t3\ne\n",
        clean: b"s\t4\t4\np\t0\t1\np\t0\t3\np\t1\t2\np\t2\t3\ne\n",
    },
    Case {
        sheet: b"s\t5\t5\np\t0\t1\np\t0\t4\np\t1\t2\np\t2\t3\np\t3\t4\ne\n",
        clean: b"s\t5\t5\np\t0\t1\np\t0\t4\np\t1\t2\np\t2\t3\np\t3\t4\ne\n",
    },
    Case {
        sheet: b"s\t4\t6\np\t0\t1\np\t0\t2\np\t0\t3\np\t1\t2\np\t1\t3\np\t2\t3\ne\n",
        clean: b"s\t4\t6\np\t0\t1\np\t0\t2\np\t0\t3\np\t1\t2\np\t1\t3\np\t2\t3\ne\n",
    },
    Case {
        sheet: b"s\t6\t10\np\t0\t1\np\t0\t4\np\t0\t5\np\t1\t2\np\t1\t5\np\t2\t3\np\t2\t5\np\t3\t4\np\t3\t5\np\t4\t5\ne\n",
        clean: b"s\t6\t10\np\t0\t1\np\t0\t4\np\t0\t5\np\t1\t2\np\t1\t5\np\t2\t3\np\t2\t5\np\t3\t4\np\t3\t5\np\t4\t5\ne\n",
    },
    Case {
        sheet: b"s\t200\t3\np\t9\t10\np\t9\t100\np\t10\t11\ne\n",
        clean: b"s\t200\t3\np\t9\t10\np\t9\t100\np\t10\t11\ne\n",
    },
    Case {
        sheet: b"s\t101\t2\np\t0\t100\np\t10\t100\ne\n",
        clean: b"s\t101\t2\np\t0\t100\np\t10\t100\ne\n",
    },
    Case {
        sheet: b"s\t0\t0\nr\ne\n",
        clean: b"s\t0\t0\ne\n",
    },
    Case {
        sheet: b"s\t0\t0\nr\t\ne\n",
        clean: b"s\t0\t0\ne\n",
    },
    Case {
        sheet: b"s\t0\t0\nr\ttext\ne\n",
        clean: b"s\t0\t0\ne\n",
    },
    Case {
        sheet: b"s\t0\t0\nr\t\t\t\ne\n",
        clean: b"s\t0\t0\ne\n",
    },
    Case {
        sheet: b"s\t0\t0\nr\ta\tb\tc\td\te\ne\n",
        clean: b"s\t0\t0\ne\n",
    },
    Case {
        sheet: b"s\t0\t0\nr\tcaf\xc3\xa9 \x80\xfe\xff\x00\x1a\ne\n",
        clean: b"s\t0\t0\ne\n",
    },
    Case {
        sheet: b"s\t0\t0\nr\tend\r\ne\n",
        clean: b"s\t0\t0\ne\n",
    },
    Case {
        sheet: b"s\t0\t0\nr\t\r\ne\n",
        clean: b"s\t0\t0\ne\n",
    },
    Case {
        sheet: b"s\t0\t0\nr\nr\nr\tx\nr\t\ne\n",
        clean: b"s\t0\t0\ne\n",
    },
    Case {
        sheet: b"s\t3\t2\nr\tbefore\np\t0\t1\nr\tbetween\np\t1\t2\nr\tbehind\ne\n",
        clean: b"s\t3\t2\np\t0\t1\np\t1\t2\ne\n",
    },
    Case {
        sheet: b"s\t3\t1\nr\tp\t0\t2\np\t0\t1\ne\n",
        clean: b"s\t3\t1\np\t0\t1\ne\n",
    },
    Case {
        sheet: b"s\t3\t1\nr\te\np\t0\t1\ne\n",
        clean: b"s\t3\t1\np\t0\t1\ne\n",
    },
    Case {
        sheet: b"s\t3\t1\nr\ts\t9\t9\np\t0\t1\ne\n",
        clean: b"s\t3\t1\np\t0\t1\ne\n",
    },
    Case {
        sheet: b"s\t2\t1\nr\t00 -1 +1 100000\np\t0\t1\ne\n",
        clean: b"s\t2\t1\np\t0\t1\ne\n",
    },
    Case {
        sheet: b"s\t2\t1\np\t0\t1\nr\ne\n",
        clean: b"s\t2\t1\np\t0\t1\ne\n",
    },
    Case {
        sheet: b"s\t1\t0\nr\t \ne\n",
        clean: b"s\t1\t0\ne\n",
    },
];

#[test]
fn written_clean(rt: HostRuntime) -> Result<(), Fail> {
    for c in &GOOD {
        match rewrite(rt.alloc(), c.sheet) {
            Ok(text) => assert_eq!(rt; text.as_slice(), c.clean),
            Err(_) => return Err(Fail::new("a good sheet was refused")),
        }
    }
    Ok(())
}
