use graph::refusal::Refusal;
use lines::Fault;
use reading::check as check_sheet;
use std::process::Abort;
use std::test::Fail;

// A sheet, and the fault that it is due: number, line, field, and the bytes of the field.
#[derive(Clone, Copy)]
struct Case {
    sheet: &'static [u8],
    number: u8,
    line: usize,
    field: usize,
    shown: &'static [u8],
}

// Input that stops early.
const STOPS_EARLY: [Case; 15] = [
    Case {
        sheet: b"",
        number: 9,
        line: 1,
        field: 1,
        shown: b"",
    },
    Case {
        sheet: b"s",
        number: 9,
        line: 1,
        field: 1,
        shown: b"",
    },
    Case {
        sheet: b"s\t4\t0",
        number: 9,
        line: 1,
        field: 1,
        shown: b"",
    },
    Case {
        sheet: b"e",
        number: 9,
        line: 1,
        field: 1,
        shown: b"",
    },
    Case {
        sheet: b"x\ty",
        number: 9,
        line: 1,
        field: 1,
        shown: b"",
    },
    Case {
        sheet: b"s\t4\t0\n",
        number: 9,
        line: 2,
        field: 1,
        shown: b"",
    },
    Case {
        sheet: b"s\t4\t0\ne",
        number: 9,
        line: 2,
        field: 1,
        shown: b"",
    },
    Case {
        sheet: b"s\t4\t0\nx",
        number: 9,
        line: 2,
        field: 1,
        shown: b"",
    },
    Case {
        sheet: b"s\t4\t0\nr\ta text",
        number: 9,
        line: 2,
        field: 1,
        shown: b"",
    },
    Case {
        sheet: b"s\t4\t1\np\t0\t1\n",
        number: 9,
        line: 3,
        field: 1,
        shown: b"",
    },
    Case {
        sheet: b"s\t4\t1\np\t0\t1",
        number: 9,
        line: 2,
        field: 1,
        shown: b"",
    },
    Case {
        sheet: b"s\t4\t1\np\t0\t9",
        number: 9,
        line: 2,
        field: 1,
        shown: b"",
    },
    Case {
        sheet: b"s\t4\t2\np\t0\t1\ne",
        number: 9,
        line: 3,
        field: 1,
        shown: b"",
    },
    Case {
        sheet: b"s\t4\t1\nr\nr\t\np\t0\t1\nr\tend\n",
        number: 9,
        line: 6,
        field: 1,
        shown: b"",
    },
    Case {
        sheet: b"s\t0\t0\r",
        number: 9,
        line: 1,
        field: 1,
        shown: b"",
    },
];

// First line: letter.
const FIRST_LETTER: [Case; 16] = [
    Case {
        sheet: b"\n",
        number: 9,
        line: 1,
        field: 1,
        shown: b"",
    },
    Case {
        sheet: b"\n\n",
        number: 9,
        line: 1,
        field: 1,
        shown: b"",
    },
    Case {
        sheet: b"\ns\t4\t0\ne\n",
        number: 9,
        line: 1,
        field: 1,
        shown: b"",
    },
    Case {
        sheet: b"p\t0\t1\n",
        number: 9,
        line: 1,
        field: 1,
        shown: b"p",
    },
    Case {
        sheet: b"e\n",
        number: 9,
        line: 1,
        field: 1,
        shown: b"e",
    },
    Case {
        sheet: b"r\n",
        number: 9,
        line: 1,
        field: 1,
        shown: b"r",
    },
    Case {
        sheet: b"r\ttext\ns\t0\t0\ne\n",
        number: 9,
        line: 1,
        field: 1,
        shown: b"r",
    },
    Case {
        sheet: b"S\t4\t0\ne\n",
        number: 9,
        line: 1,
        field: 1,
        shown: b"S",
    },
    Case {
        sheet: b"ss\t4\t0\ne\n",
        number: 9,
        line: 1,
        field: 1,
        shown: b"ss",
    },
    Case {
        sheet: b" s\t4\t0\ne\n",
        number: 9,
        line: 1,
        field: 1,
        shown: b" s",
    },
    Case {
        sheet: b"s \t4\t0\ne\n",
        number: 9,
        line: 1,
        field: 1,
        shown: b"s ",
    },
    Case {
        sheet: b"s 4 0\ne\n",
        number: 9,
        line: 1,
        field: 1,
        shown: b"s 4 0",
    },
    Case {
        sheet: b"\ts\t4\t0\ne\n",
        number: 9,
        line: 1,
        field: 1,
        shown: b"",
    },
    Case {
        sheet: b"\xef\xbb\xbfs\t4\t0\ne\n",
        number: 9,
        line: 1,
        field: 1,
        shown: b"\xef\xbb\xbfs",
    },
    Case {
        sheet: b"s\r\n",
        number: 9,
        line: 1,
        field: 1,
        shown: b"s\r",
    },
    Case {
        sheet: b"\x00\t4\t0\ne\n",
        number: 9,
        line: 1,
        field: 1,
        shown: b"\x00",
    },
];

// Size line: fields.
const SIZE_FIELDS: [Case; 30] = [
    Case {
        sheet: b"s\n",
        number: 9,
        line: 1,
        field: 2,
        shown: b"",
    },
    Case {
        sheet: b"s\t\n",
        number: 9,
        line: 1,
        field: 2,
        shown: b"",
    },
    Case {
        sheet: b"s\t4\n",
        number: 9,
        line: 1,
        field: 3,
        shown: b"",
    },
    Case {
        sheet: b"s\t4\t\ne\n",
        number: 9,
        line: 1,
        field: 3,
        shown: b"",
    },
    Case {
        sheet: b"s\t\t0\ne\n",
        number: 9,
        line: 1,
        field: 2,
        shown: b"",
    },
    Case {
        sheet: b"s\t\t\n",
        number: 9,
        line: 1,
        field: 2,
        shown: b"",
    },
    Case {
        sheet: b"s\t4\t0\t\ne\n",
        number: 9,
        line: 1,
        field: 4,
        shown: b"",
    },
    Case {
        sheet: b"s\t4\t0\t0\ne\n",
        number: 9,
        line: 1,
        field: 4,
        shown: b"0",
    },
    Case {
        sheet: b"s\t4\t0\t1\t2\ne\n",
        number: 9,
        line: 1,
        field: 4,
        shown: b"1",
    },
    Case {
        sheet: b"s\tx\t0\ne\n",
        number: 9,
        line: 1,
        field: 2,
        shown: b"x",
    },
    Case {
        sheet: b"s\t4\tx\ne\n",
        number: 9,
        line: 1,
        field: 3,
        shown: b"x",
    },
    Case {
        sheet: b"s\tx\ty\tz\n",
        number: 9,
        line: 1,
        field: 2,
        shown: b"x",
    },
    Case {
        sheet: b"s\t4\tx\t0\ne\n",
        number: 9,
        line: 1,
        field: 3,
        shown: b"x",
    },
    Case {
        sheet: b"s\t04\t0\ne\n",
        number: 9,
        line: 1,
        field: 2,
        shown: b"04",
    },
    Case {
        sheet: b"s\t4\t00\ne\n",
        number: 9,
        line: 1,
        field: 3,
        shown: b"00",
    },
    Case {
        sheet: b"s\t-1\t0\ne\n",
        number: 9,
        line: 1,
        field: 2,
        shown: b"-1",
    },
    Case {
        sheet: b"s\t+4\t0\ne\n",
        number: 9,
        line: 1,
        field: 2,
        shown: b"+4",
    },
    Case {
        sheet: b"s\t4 \t0\ne\n",
        number: 9,
        line: 1,
        field: 2,
        shown: b"4 ",
    },
    Case {
        sheet: b"s\t4\t 0\ne\n",
        number: 9,
        line: 1,
        field: 3,
        shown: b" 0",
    },
    Case {
        sheet: b"s\t4.0\t0\ne\n",
        number: 9,
        line: 1,
        field: 2,
        shown: b"4.0",
    },
    Case {
        sheet: b"s\t1,024\t0\ne\n",
        number: 9,
        line: 1,
        field: 2,
        shown: b"1,024",
    },
    Case {
        sheet: b"s\t0x4\t0\ne\n",
        number: 9,
        line: 1,
        field: 2,
        shown: b"0x4",
    },
    Case {
        sheet: b"s\t1e3\t0\ne\n",
        number: 9,
        line: 1,
        field: 2,
        shown: b"1e3",
    },
    Case {
        sheet: b"s\t100000\t0\ne\n",
        number: 9,
        line: 1,
        field: 2,
        shown: b"100000",
    },
    Case {
        sheet: b"s\t4\t100000\ne\n",
        number: 9,
        line: 1,
        field: 3,
        shown: b"100000",
    },
    Case {
        sheet: b"s\t000001\t0\ne\n",
        number: 9,
        line: 1,
        field: 2,
        shown: b"000001",
    },
    Case {
        sheet: b"s\t4\t0\r\ne\n",
        number: 9,
        line: 1,
        field: 3,
        shown: b"0\r",
    },
    Case {
        sheet: b"s\t4\xff\t0\ne\n",
        number: 9,
        line: 1,
        field: 2,
        shown: b"4\xff",
    },
    Case {
        sheet: b"s\t:\t0\ne\n",
        number: 9,
        line: 1,
        field: 2,
        shown: b":",
    },
    Case {
        sheet: b"s\t/\t0\ne\n",
        number: 9,
        line: 1,
        field: 2,
        shown: b"/",
    },
];

// Size line: 11, after 9.
const SIZE_LARGE: [Case; 9] = [
    Case {
        sheet: b"s\t1025\t0\ne\n",
        number: 11,
        line: 1,
        field: 1,
        shown: b"s",
    },
    Case {
        sheet: b"s\t4\t16385\ne\n",
        number: 11,
        line: 1,
        field: 1,
        shown: b"s",
    },
    Case {
        sheet: b"s\t99999\t0\ne\n",
        number: 11,
        line: 1,
        field: 1,
        shown: b"s",
    },
    Case {
        sheet: b"s\t0\t99999\ne\n",
        number: 11,
        line: 1,
        field: 1,
        shown: b"s",
    },
    Case {
        sheet: b"s\t1025\t16385\ne\n",
        number: 11,
        line: 1,
        field: 1,
        shown: b"s",
    },
    Case {
        sheet: b"s\t1025\t0\n",
        number: 11,
        line: 1,
        field: 1,
        shown: b"s",
    },
    Case {
        sheet: b"s\t1025\tx\ne\n",
        number: 9,
        line: 1,
        field: 3,
        shown: b"x",
    },
    Case {
        sheet: b"s\t1025\t0\t\ne\n",
        number: 9,
        line: 1,
        field: 4,
        shown: b"",
    },
    Case {
        sheet: b"s\t1025\t0\nx\n",
        number: 11,
        line: 1,
        field: 1,
        shown: b"s",
    },
];

// Later lines: letter.
const LATER_LETTER: [Case; 22] = [
    Case {
        sheet: b"s\t4\t2\ns\t4\t2\n",
        number: 9,
        line: 2,
        field: 1,
        shown: b"s",
    },
    Case {
        sheet: b"s\t4\t1\np\t0\t1\ns\t4\t1\ne\n",
        number: 9,
        line: 3,
        field: 1,
        shown: b"s",
    },
    Case {
        sheet: b"s\t4\t0\ns\n",
        number: 9,
        line: 2,
        field: 1,
        shown: b"s",
    },
    Case {
        sheet: b"s\t4\t2\n\n",
        number: 9,
        line: 2,
        field: 1,
        shown: b"",
    },
    Case {
        sheet: b"s\t4\t2\n\te\n",
        number: 9,
        line: 2,
        field: 1,
        shown: b"",
    },
    Case {
        sheet: b"s\t4\t2\nP\t0\t1\n",
        number: 9,
        line: 2,
        field: 1,
        shown: b"P",
    },
    Case {
        sheet: b"s\t4\t0\nE\n",
        number: 9,
        line: 2,
        field: 1,
        shown: b"E",
    },
    Case {
        sheet: b"s\t4\t2\nR\ttext\n",
        number: 9,
        line: 2,
        field: 1,
        shown: b"R",
    },
    Case {
        sheet: b"s\t4\t2\npp\t0\t1\n",
        number: 9,
        line: 2,
        field: 1,
        shown: b"pp",
    },
    Case {
        sheet: b"s\t4\t2\nq\t0\t1\n",
        number: 9,
        line: 2,
        field: 1,
        shown: b"q",
    },
    Case {
        sheet: b"s\t4\t2\n p\t0\t1\n",
        number: 9,
        line: 2,
        field: 1,
        shown: b" p",
    },
    Case {
        sheet: b"s\t4\t2\np 0 1\n",
        number: 9,
        line: 2,
        field: 1,
        shown: b"p 0 1",
    },
    Case {
        sheet: b"s\t4\t2\nrx\n",
        number: 9,
        line: 2,
        field: 1,
        shown: b"rx",
    },
    Case {
        sheet: b"s\t4\t2\nr text\n",
        number: 9,
        line: 2,
        field: 1,
        shown: b"r text",
    },
    Case {
        sheet: b"s\t4\t2\nr\r\n",
        number: 9,
        line: 2,
        field: 1,
        shown: b"r\r",
    },
    Case {
        sheet: b"s\t4\t2\n0\t1\n",
        number: 9,
        line: 2,
        field: 1,
        shown: b"0",
    },
    Case {
        sheet: b"s\t4\t2\n\xf0\n",
        number: 9,
        line: 2,
        field: 1,
        shown: b"\xf0",
    },
    Case {
        sheet: b"s\t4\t0\n e\n",
        number: 9,
        line: 2,
        field: 1,
        shown: b" e",
    },
    Case {
        sheet: b"s\t4\t0\nee\n",
        number: 9,
        line: 2,
        field: 1,
        shown: b"ee",
    },
    Case {
        sheet: b"s\t4\t0\ne\r\n",
        number: 9,
        line: 2,
        field: 1,
        shown: b"e\r",
    },
    Case {
        sheet: b"s\t4\t0\n\r\ne\n",
        number: 9,
        line: 2,
        field: 1,
        shown: b"\r",
    },
    Case {
        sheet: b"s\t4\t0\n#\tnote\ne\n",
        number: 9,
        line: 2,
        field: 1,
        shown: b"#",
    },
];

// Clash line: fields.
const CLASH_FIELDS: [Case; 21] = [
    Case {
        sheet: b"s\t4\t2\np\n",
        number: 9,
        line: 2,
        field: 2,
        shown: b"",
    },
    Case {
        sheet: b"s\t4\t2\np\t\n",
        number: 9,
        line: 2,
        field: 2,
        shown: b"",
    },
    Case {
        sheet: b"s\t4\t2\np\t0\n",
        number: 9,
        line: 2,
        field: 3,
        shown: b"",
    },
    Case {
        sheet: b"s\t4\t2\np\t0\t\n",
        number: 9,
        line: 2,
        field: 3,
        shown: b"",
    },
    Case {
        sheet: b"s\t4\t2\np\t\t1\n",
        number: 9,
        line: 2,
        field: 2,
        shown: b"",
    },
    Case {
        sheet: b"s\t4\t2\np\t0\t\t1\n",
        number: 9,
        line: 2,
        field: 3,
        shown: b"",
    },
    Case {
        sheet: b"s\t4\t2\np\t0\t1\t\n",
        number: 9,
        line: 2,
        field: 4,
        shown: b"",
    },
    Case {
        sheet: b"s\t4\t2\np\t0\t1\t2\n",
        number: 9,
        line: 2,
        field: 4,
        shown: b"2",
    },
    Case {
        sheet: b"s\t4\t2\np\tx\t1\n",
        number: 9,
        line: 2,
        field: 2,
        shown: b"x",
    },
    Case {
        sheet: b"s\t4\t2\np\t0\tx\n",
        number: 9,
        line: 2,
        field: 3,
        shown: b"x",
    },
    Case {
        sheet: b"s\t4\t2\np\t00\t1\n",
        number: 9,
        line: 2,
        field: 2,
        shown: b"00",
    },
    Case {
        sheet: b"s\t4\t2\np\t0\t01\n",
        number: 9,
        line: 2,
        field: 3,
        shown: b"01",
    },
    Case {
        sheet: b"s\t4\t2\np\t-1\t1\n",
        number: 9,
        line: 2,
        field: 2,
        shown: b"-1",
    },
    Case {
        sheet: b"s\t4\t2\np\t0\t+1\n",
        number: 9,
        line: 2,
        field: 3,
        shown: b"+1",
    },
    Case {
        sheet: b"s\t4\t2\np\t100000\t1\n",
        number: 9,
        line: 2,
        field: 2,
        shown: b"100000",
    },
    Case {
        sheet: b"s\t4\t2\np\t0\t100000\n",
        number: 9,
        line: 2,
        field: 3,
        shown: b"100000",
    },
    Case {
        sheet: b"s\t4\t2\np\t0 \t1\n",
        number: 9,
        line: 2,
        field: 2,
        shown: b"0 ",
    },
    Case {
        sheet: b"s\t4\t2\np\t0\t1\r\n",
        number: 9,
        line: 2,
        field: 3,
        shown: b"1\r",
    },
    Case {
        sheet: b"s\t4\t2\np\t0,1\n",
        number: 9,
        line: 2,
        field: 2,
        shown: b"0,1",
    },
    Case {
        sheet: b"s\t4\t2\np\t0\t1\np\t0\tx\n",
        number: 9,
        line: 3,
        field: 3,
        shown: b"x",
    },
    Case {
        sheet: b"s\t4\t2\nr\nr\tx\np\t0\n",
        number: 9,
        line: 4,
        field: 3,
        shown: b"",
    },
];

// Clash line: 12, 1, 10 in this order, after 9.
const CLASH_ORDER: [Case; 27] = [
    Case {
        sheet: b"s\t4\t0\np\t0\t1\ne\n",
        number: 12,
        line: 2,
        field: 1,
        shown: b"p",
    },
    Case {
        sheet: b"s\t4\t1\np\t0\t1\np\t0\t2\ne\n",
        number: 12,
        line: 3,
        field: 1,
        shown: b"p",
    },
    Case {
        sheet: b"s\t4\t1\np\t0\t1\nr\np\t0\t2\ne\n",
        number: 12,
        line: 4,
        field: 1,
        shown: b"p",
    },
    Case {
        sheet: b"s\t4\t0\np\t4\t4\ne\n",
        number: 12,
        line: 2,
        field: 1,
        shown: b"p",
    },
    Case {
        sheet: b"s\t4\t0\np\t0\tx\ne\n",
        number: 9,
        line: 2,
        field: 3,
        shown: b"x",
    },
    Case {
        sheet: b"s\t4\t0\np\t0\t1\t2\ne\n",
        number: 9,
        line: 2,
        field: 4,
        shown: b"2",
    },
    Case {
        sheet: b"s\t0\t0\np\t0\t1\ne\n",
        number: 12,
        line: 2,
        field: 1,
        shown: b"p",
    },
    Case {
        sheet: b"s\t0\t1\np\t0\t1\ne\n",
        number: 1,
        line: 2,
        field: 2,
        shown: b"0",
    },
    Case {
        sheet: b"s\t4\t2\np\t4\t5\n",
        number: 1,
        line: 2,
        field: 2,
        shown: b"4",
    },
    Case {
        sheet: b"s\t4\t2\np\t0\t4\n",
        number: 1,
        line: 2,
        field: 3,
        shown: b"4",
    },
    Case {
        sheet: b"s\t4\t2\np\t4\t0\n",
        number: 1,
        line: 2,
        field: 2,
        shown: b"4",
    },
    Case {
        sheet: b"s\t4\t2\np\t4\t4\n",
        number: 1,
        line: 2,
        field: 2,
        shown: b"4",
    },
    Case {
        sheet: b"s\t4\t2\np\t3\t99999\n",
        number: 1,
        line: 2,
        field: 3,
        shown: b"99999",
    },
    Case {
        sheet: b"s\t1024\t1\np\t0\t1024\ne\n",
        number: 1,
        line: 2,
        field: 3,
        shown: b"1024",
    },
    Case {
        sheet: b"s\t1024\t1\np\t1024\t1025\ne\n",
        number: 1,
        line: 2,
        field: 2,
        shown: b"1024",
    },
    Case {
        sheet: b"s\t4\t2\np\t0\t4\tx\n",
        number: 9,
        line: 2,
        field: 4,
        shown: b"x",
    },
    Case {
        sheet: b"s\t4\t2\np\t1\t1\n",
        number: 10,
        line: 2,
        field: 1,
        shown: b"p",
    },
    Case {
        sheet: b"s\t4\t2\np\t2\t1\n",
        number: 10,
        line: 2,
        field: 1,
        shown: b"p",
    },
    Case {
        sheet: b"s\t1\t1\np\t0\t0\ne\n",
        number: 10,
        line: 2,
        field: 1,
        shown: b"p",
    },
    Case {
        sheet: b"s\t4\t2\np\t0\t1\np\t0\t1\ne\n",
        number: 10,
        line: 3,
        field: 1,
        shown: b"p",
    },
    Case {
        sheet: b"s\t4\t2\np\t0\t2\np\t0\t1\ne\n",
        number: 10,
        line: 3,
        field: 1,
        shown: b"p",
    },
    Case {
        sheet: b"s\t4\t2\np\t1\t2\np\t0\t3\ne\n",
        number: 10,
        line: 3,
        field: 1,
        shown: b"p",
    },
    Case {
        sheet: b"s\t4\t2\np\t0\t1\np\t1\t0\ne\n",
        number: 10,
        line: 3,
        field: 1,
        shown: b"p",
    },
    Case {
        sheet: b"s\t4\t2\np\t1\t2\nr\np\t0\t1\ne\n",
        number: 10,
        line: 4,
        field: 1,
        shown: b"p",
    },
    Case {
        sheet: b"s\t4\t3\np\t0\t3\np\t1\t2\np\t0\t4\ne\n",
        number: 1,
        line: 4,
        field: 3,
        shown: b"4",
    },
    Case {
        sheet: b"s\t200\t2\np\t9\t100\np\t10\t11\np\t0\t1\ne\n",
        number: 12,
        line: 4,
        field: 1,
        shown: b"p",
    },
    Case {
        sheet: b"s\t200\t2\np\t10\t100\np\t9\t150\ne\n",
        number: 10,
        line: 3,
        field: 1,
        shown: b"p",
    },
];

// End line.
const END_LINE: [Case; 11] = [
    Case {
        sheet: b"s\t4\t1\ne\n",
        number: 12,
        line: 2,
        field: 1,
        shown: b"e",
    },
    Case {
        sheet: b"s\t4\t2\np\t0\t1\ne\n",
        number: 12,
        line: 3,
        field: 1,
        shown: b"e",
    },
    Case {
        sheet: b"s\t4\t2\np\t0\t1\nr\tp\t0\t2\ne\n",
        number: 12,
        line: 4,
        field: 1,
        shown: b"e",
    },
    Case {
        sheet: b"s\t1024\t16384\ne\n",
        number: 12,
        line: 2,
        field: 1,
        shown: b"e",
    },
    Case {
        sheet: b"s\t0\t1\ne\n",
        number: 12,
        line: 2,
        field: 1,
        shown: b"e",
    },
    Case {
        sheet: b"s\t4\t0\ne\t\n",
        number: 9,
        line: 2,
        field: 2,
        shown: b"",
    },
    Case {
        sheet: b"s\t4\t0\ne\tx\n",
        number: 9,
        line: 2,
        field: 2,
        shown: b"x",
    },
    Case {
        sheet: b"s\t4\t0\ne\t\tx\n",
        number: 9,
        line: 2,
        field: 2,
        shown: b"",
    },
    Case {
        sheet: b"s\t4\t1\ne\tx\n",
        number: 9,
        line: 2,
        field: 2,
        shown: b"x",
    },
    Case {
        sheet: b"s\t4\t1\ne\nx",
        number: 12,
        line: 2,
        field: 1,
        shown: b"e",
    },
    Case {
        sheet: b"s\t4\t0\ne\t\r\n",
        number: 9,
        line: 2,
        field: 2,
        shown: b"\r",
    },
];

// What follows the end.
const AFTER_END: [Case; 14] = [
    Case {
        sheet: b"s\t4\t0\ne\n\n",
        number: 9,
        line: 3,
        field: 1,
        shown: b"",
    },
    Case {
        sheet: b"s\t4\t0\ne\ne\n",
        number: 9,
        line: 3,
        field: 1,
        shown: b"e",
    },
    Case {
        sheet: b"s\t4\t0\ne\ne",
        number: 9,
        line: 3,
        field: 1,
        shown: b"e",
    },
    Case {
        sheet: b"s\t4\t0\ne\nr\n",
        number: 9,
        line: 3,
        field: 1,
        shown: b"r",
    },
    Case {
        sheet: b"s\t4\t0\ne\nr\ttext\n",
        number: 9,
        line: 3,
        field: 1,
        shown: b"r",
    },
    Case {
        sheet: b"s\t4\t0\ne\nx",
        number: 9,
        line: 3,
        field: 1,
        shown: b"x",
    },
    Case {
        sheet: b"s\t4\t0\ne\n ",
        number: 9,
        line: 3,
        field: 1,
        shown: b" ",
    },
    Case {
        sheet: b"s\t4\t0\ne\n\t",
        number: 9,
        line: 3,
        field: 1,
        shown: b"",
    },
    Case {
        sheet: b"s\t4\t0\ne\n\x00",
        number: 9,
        line: 3,
        field: 1,
        shown: b"\x00",
    },
    Case {
        sheet: b"s\t4\t0\ne\n\r\n",
        number: 9,
        line: 3,
        field: 1,
        shown: b"\r",
    },
    Case {
        sheet: b"s\t4\t0\ne\n\x1a",
        number: 9,
        line: 3,
        field: 1,
        shown: b"\x1a",
    },
    Case {
        sheet: b"s\t4\t0\ne\np\t0\t1\n",
        number: 9,
        line: 3,
        field: 1,
        shown: b"p",
    },
    Case {
        sheet: b"s\t4\t1\np\t0\t1\ne\ns\t4\t0\ne\n",
        number: 9,
        line: 4,
        field: 1,
        shown: b"s",
    },
    Case {
        sheet: b"s\t4\t0\nr\ne\nabc\tdef\nghi\n",
        number: 9,
        line: 4,
        field: 1,
        shown: b"abc",
    },
];

// Each sheet gets its fault.
fn all_due(rt: &impl Abort, cases: &[Case]) -> Result<(), Fail> {
    for c in cases {
        match check_sheet(c.sheet) {
            Ok(_) => return Err(Fail::new("a faulty sheet was taken")),
            Err(Fault { refusal, place }) => {
                assert_eq!(rt; u8::from(refusal), c.number);
                let Some(place) = place else {
                    return Err(Fail::new("a fault of no line"));
                };
                assert_eq!(rt; place.line, c.line);
                assert_eq!(rt; place.field, c.field);
                assert_eq!(rt; place.shown, c.shown);
            }
        }
    }
    Ok(())
}

#[test]
fn early(rt: HostRuntime) -> Result<(), Fail> {
    all_due(&rt, &STOPS_EARLY)
}

#[test]
fn first(rt: HostRuntime) -> Result<(), Fail> {
    all_due(&rt, &FIRST_LETTER)
}

#[test]
fn size(rt: HostRuntime) -> Result<(), Fail> {
    all_due(&rt, &SIZE_FIELDS)
}

#[test]
fn large(rt: HostRuntime) -> Result<(), Fail> {
    all_due(&rt, &SIZE_LARGE)
}

#[test]
fn later(rt: HostRuntime) -> Result<(), Fail> {
    all_due(&rt, &LATER_LETTER)
}

#[test]
fn clash(rt: HostRuntime) -> Result<(), Fail> {
    all_due(&rt, &CLASH_FIELDS)
}

#[test]
fn order(rt: HostRuntime) -> Result<(), Fail> {
    all_due(&rt, &CLASH_ORDER)
}

#[test]
fn end(rt: HostRuntime) -> Result<(), Fail> {
    all_due(&rt, &END_LINE)
}

#[test]
fn after(rt: HostRuntime) -> Result<(), Fail> {
    all_due(&rt, &AFTER_END)
}
