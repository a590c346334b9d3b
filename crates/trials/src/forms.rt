// Text that is no sheet, in every way that we know.
use crate::case::Case;

pub(crate) const FORMS: [Case; 63] = [
    Case {
        name: "empty",
        text: b"",
    },
    Case {
        name: "only a line end",
        text: b"\n",
    },
    Case {
        name: "only a space",
        text: b" \n",
    },
    Case {
        name: "two line ends",
        text: b"\n\n",
    },
    Case {
        name: "no last line end",
        text: b"plain - 1.0\nplain 0.1 -\nroute 0 1",
    },
    Case {
        name: "no line end at all",
        text: b"plain - 1.0",
    },
    Case {
        name: "cut in a word",
        text: b"plain - 1.0\nplain 0.1 -\nrou",
    },
    Case {
        name: "empty line between",
        text: b"plain - 1.0\n\nplain 0.1 -\nroute 0 1\n",
    },
    Case {
        name: "empty line at the end",
        text: b"plain - 1.0\nplain 0.1 -\nroute 0 1\n\n",
    },
    Case {
        name: "zero byte",
        text: b"plain - 1.0\0\nplain 0.1 -\nroute 0 1\n",
    },
    Case {
        name: "tab for a space",
        text: b"plain\t- 1.0\nplain 0.1 -\nroute 0 1\n",
    },
    Case {
        name: "tab at the end of a line",
        text: b"plain - 1.0\nplain 0.1 -\t\nroute 0 1\n",
    },
    Case {
        name: "carriage returns",
        text: b"plain - 1.0\r\nplain 0.1 -\r\nroute 0 1\r\n",
    },
    Case {
        name: "carriage return in a route",
        text: b"plain - 1.0\nplain 0.1 -\nroute 0 1\r\n",
    },
    Case {
        name: "carriage returns for line ends",
        text: b"plain - 1.0\rplain 0.1 -\rroute 0 1\r",
    },
    Case {
        name: "double space",
        text: b"plain - 1.0\nplain 0.1  -\nroute 0 1\n",
    },
    Case {
        name: "double space in a route",
        text: b"plain - 1.0\nplain 0.1 -\nroute 0  1\n",
    },
    Case {
        name: "leading space",
        text: b" plain - 1.0\nplain 0.1 -\nroute 0 1\n",
    },
    Case {
        name: "trailing space",
        text: b"plain - 1.0\nplain 0.1 - \nroute 0 1\n",
    },
    Case {
        name: "trailing space in a route",
        text: b"plain - 1.0\nplain 0.1 -\nroute 0 1 \n",
    },
    Case {
        name: "leading zero in a route",
        text: b"plain - 1.0\nplain 0.1 -\nroute 00 1\n",
    },
    Case {
        name: "leading zero in a block",
        text: b"plain - 01.0\nplain 0.1 -\nroute 0 1\n",
    },
    Case {
        name: "leading zero in an end",
        text: b"plain - 1.0\nplain 0.01 -\nroute 0 1\n",
    },
    Case {
        name: "three digits in a route",
        text: b"plain - 1.0\nplain 0.1 -\nroute 0 100\n",
    },
    Case {
        name: "three digits in a block",
        text: b"plain - 100.0\nplain 0.1 -\nroute 0 1\n",
    },
    Case {
        name: "three digits in an end",
        text: b"plain - 1.0\nplain 0.100 -\nroute 0 1\n",
    },
    Case {
        name: "byte above 127 in a route",
        text: b"plain - 1.0\nplain 0.1 -\nroute 0 \xb1\n",
    },
    Case {
        name: "byte above 127 in an end",
        text: b"plain - \xb1.0\nplain 0.1 -\nroute 0 1\n",
    },
    Case {
        name: "byte order mark",
        text: b"\xef\xbb\xbfplain - 1.0\nplain 0.1 -\nroute 0 1\n",
    },
    Case {
        name: "capital letter",
        text: b"Plain - 1.0\nplain 0.1 -\nroute 0 1\n",
    },
    Case {
        name: "capital letters",
        text: b"plain - 1.0\nplain 0.1 -\nROUTE 0 1\n",
    },
    Case {
        name: "unknown word",
        text: b"plain - 1.0\nblock 0.1 -\nroute 0 1\n",
    },
    Case {
        name: "word too short",
        text: b"plain - 1.0\nplain 0.1 -\nrout 0 1\n",
    },
    Case {
        name: "word too long",
        text: b"plain - 1.0\nplain 0.1 -\nroutes 0 1\n",
    },
    Case {
        name: "comment",
        text: b"# a yard\nplain - 1.0\nplain 0.1 -\nroute 0 1\n",
    },
    Case {
        name: "comment behind a line",
        text: b"plain - 1.0\nplain 0.1 - # the end\nroute 0 1\n",
    },
    Case {
        name: "block behind a route",
        text: b"plain - 1.0\nplain 0.1 -\nroute 0 1\nplain - -\n",
    },
    Case {
        name: "two blocks in a line",
        text: b"plain - 1.0 plain 0.1 -\nroute 0 1\n",
    },
    Case {
        name: "route without a number",
        text: b"plain - 1.0\nplain 0.1 -\nroute\n",
    },
    Case {
        name: "route with a space only",
        text: b"plain - 1.0\nplain 0.1 -\nroute \n",
    },
    Case {
        name: "plain with no end",
        text: b"plain - 1.0\nplain\nroute 0 1\n",
    },
    Case {
        name: "plain with one end",
        text: b"plain - 1.0\nplain 0.1\nroute 0 1\n",
    },
    Case {
        name: "plain with three ends",
        text: b"plain - 1.0\nplain 0.1 - -\nroute 0 1\n",
    },
    Case {
        name: "point with two ends",
        text: b"plain - 1.0\npoint 0.1 2.0\nroute 0 1\n",
    },
    Case {
        name: "point with four ends",
        text: b"plain - 1.0\npoint 0.1 2.0 3.0 4.0\nroute 0 1\n",
    },
    Case {
        name: "crossing with three ends",
        text: b"plain - 1.0\ncrossing 0.1 2.0 3.0\nroute 0 1\n",
    },
    Case {
        name: "crossing with five ends",
        text: b"plain - 1.0\ncrossing 0.1 2.0 3.0 4.0 5.0\nroute 0 1\n",
    },
    Case {
        name: "end 1.",
        text: b"plain - 1.\nplain 0.1 -\nroute 0 1\n",
    },
    Case {
        name: "end .1",
        text: b"plain - .1\nplain 0.1 -\nroute 0 1\n",
    },
    Case {
        name: "end .",
        text: b"plain - .\nplain 0.1 -\nroute 0 1\n",
    },
    Case {
        name: "end 1.2.3",
        text: b"plain - 1.2.3\nplain 0.1 -\nroute 0 1\n",
    },
    Case {
        name: "end --",
        text: b"plain -- 1.0\nplain 0.1 -\nroute 0 1\n",
    },
    Case {
        name: "end 1",
        text: b"plain - 1\nplain 0.1 -\nroute 0 1\n",
    },
    Case {
        name: "end -1.0",
        text: b"plain - -1.0\nplain 0.1 -\nroute 0 1\n",
    },
    Case {
        name: "end 1,0",
        text: b"plain - 1,0\nplain 0.1 -\nroute 0 1\n",
    },
    Case {
        name: "end x.0",
        text: b"plain - x.0\nplain 0.1 -\nroute 0 1\n",
    },
    Case {
        name: "number -",
        text: b"plain - 1.0\nplain 0.1 -\nroute - 1\n",
    },
    Case {
        name: "number 0.1",
        text: b"plain - 1.0\nplain 0.1 -\nroute 0.1 1\n",
    },
    Case {
        name: "number +1",
        text: b"plain - 1.0\nplain 0.1 -\nroute 0 +1\n",
    },
    Case {
        name: "number -1",
        text: b"plain - 1.0\nplain 0.1 -\nroute 0 -1\n",
    },
    Case {
        name: "number 1x",
        text: b"plain - 1.0\nplain 0.1 -\nroute 0 1x\n",
    },
    Case {
        name: "number 0x1",
        text: b"plain - 1.0\nplain 0.1 -\nroute 0 0x1\n",
    },
    Case {
        name: "numbers with a comma",
        text: b"plain - 1.0\nplain 0.1 -\nroute 0,1\n",
    },
];
