// Several faults in one sheet: the answer is the first in the order of the tests.
use crate::case::Case;

pub(crate) const ORDER: [Case; 27] = [
    Case {
        name: "limit, then form",
        text: b"plain - 1.0\nplain 0.1 -\nroute 0 0 0 0 0 0 0 0 0 0 0 0 0 0 0 0 0 0 0 0 0 0 0 0 0\nroute x\n",
    },
    Case {
        name: "form, then limit",
        text: b"plain - 1.0\nplain 0.1 -\nroute x\nroute 0 0 0 0 0 0 0 0 0 0 0 0 0 0 0 0 0 0 0 0 0 0 0 0 0\n",
    },
    Case {
        name: "form and limit in one line",
        text: b"plain - 1.0\nplain 0.1 -\nroute 0 0 0 0 0 0 0 0 0 0 0 0 0 0 0 0 0 0 0 0 0 0 0 0 0 x\n",
    },
    Case {
        name: "form, then form",
        text: b"plain - 1.0\nplain 0.1\nrout 0 1\n",
    },
    Case {
        name: "limit, then limit",
        text: b"plain - 1.0\nplain 0.1 -\nroute 0 0 0 0 0 0 0 0 0 0 0 0 0 0 0 0 0 0 0 0 0 0 0 0 0\nroute 0 0 0 0 0 0 0 0 0 0 0 0 0 0 0 0 0 0 0 0 0 0 0 0 0\n",
    },
    Case {
        name: "form before no route",
        text: b"plain - 1\n",
    },
    Case {
        name: "form before no block",
        text: b"route x\n",
    },
    Case {
        name: "limit before no block",
        text: b"route 0 0 0 0 0 0 0 0 0 0 0 0 0 0 0 0 0 0 0 0 0 0 0 0 0\n",
    },
    Case {
        name: "form before joints",
        text: b"plain - 9.0\nplain 9.9 -\nplain - -\nplain - -\nplain - -\nplain - -\nplain - -\nroute 0\nroute\n",
    },
    Case {
        name: "limit before joints",
        text: b"plain - 9.0\nplain 9.9 -\nroute 0 1\nroute 0 0 0 0 0 0 0 0 0 0 0 0 0 0 0 0 0 0 0 0 0 0 0 0 0\n",
    },
    Case {
        name: "no route before outer ends",
        text: b"plain - -\n",
    },
    Case {
        name: "no block before blocks of a route",
        text: b"route 0\n",
    },
    Case {
        name: "joint behind outer ends",
        text: b"plain - -\nplain 5.0 -\nroute 0 1\n",
    },
    Case {
        name: "joint behind one not mutual",
        text: b"plain - 1.0\nplain - 0.1\nplain 9.0 -\nroute 0 1\n",
    },
    Case {
        name: "outer ends behind one not mutual",
        text: b"plain - 1.0\nplain - 0.0\nplain - -\nroute 0 1\n",
    },
    Case {
        name: "joints in two blocks",
        text: b"plain - 8.0\nplain 9.0 -\nroute 0 1\n",
    },
    Case {
        name: "outer ends in two blocks",
        text: b"plain - -\nplain - -\nroute 0 1\n",
    },
    Case {
        name: "not mutual in two blocks",
        text: b"plain - 1.0\nplain - 0.1\nroute 0 1\n",
    },
    Case {
        name: "outer ends before routes",
        text: b"plain - 1.0\npoint 0.1 - -\nroute 0\n",
    },
    Case {
        name: "not mutual before routes",
        text: b"plain - 1.0\nplain - 0.1\nroute 0\nroute 9 9\n",
    },
    Case {
        name: "blocks before borders",
        text: b"plain - 1.0\nplain 0.1 2.0\nplain 1.1 -\nroute 1\n",
    },
    Case {
        name: "blocks before ways",
        text: b"plain - 1.0\nplain 0.1 -\nplain - 3.0\nplain 2.1 -\nroute 0 3 0\n",
    },
    Case {
        name: "borders before ways",
        text: b"plain - 1.0\nplain 0.1 2.0\nplain 1.1 3.0\nplain 2.1 -\nroute 1 3\n",
    },
    Case {
        name: "ways, then blocks in the next route",
        text: b"plain - 1.0\nplain 0.1 -\nplain - 3.0\nplain 2.1 -\nroute 0 3\nroute 0\n",
    },
    Case {
        name: "borders, then blocks in the next route",
        text: b"plain - 1.0\nplain 0.1 2.0\nplain 1.1 -\nroute 0 1\nroute 0\n",
    },
    Case {
        name: "ways, then borders in the next route",
        text: b"plain - 1.0\nplain 0.1 2.0\nplain 1.1 3.0\nplain 2.1 -\nroute 0 3\nroute 1 2\n",
    },
    Case {
        name: "a good route, then blocks, then ways",
        text: b"plain - 1.0\nplain 0.1 -\nplain - 3.0\nplain 2.1 -\nroute 0 1\nroute 0 9\nroute 0 3\n",
    },
];
