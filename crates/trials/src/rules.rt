// The example of a yard, and every rule of blocks and routes, broken alone.
use crate::case::Case;

pub(crate) const RULES: [Case; 35] = [
    Case {
        name: "example",
        text: b"plain - 1.0\npoint 0.1 2.0 3.0\nplain 1.1 -\ncrossing 1.2 4.0 5.0 6.0\nplain 3.1 -\nplain 3.2 -\nplain 3.3 -\nroute 0 1 2\nroute 0 1 3 4\nroute 5 3 6\nroute 4 3 1 0\n",
    },
    Case {
        name: "two blocks",
        text: b"plain - 1.0\nplain 0.1 -\nroute 0 1\n",
    },
    Case {
        name: "both ways",
        text: b"plain - 1.0\nplain 0.1 -\nroute 0 1\nroute 1 0\n",
    },
    Case {
        name: "one route twice",
        text: b"plain - 1.0\nplain 0.1 -\nroute 0 1\nroute 0 1\n",
    },
    Case {
        name: "block in no route",
        text: b"plain - 1.0\nplain 0.1 -\nplain - 3.0\nplain 2.1 -\nroute 0 1\n",
    },
    Case {
        name: "no route",
        text: b"plain - 1.0\nplain 0.1 -\n",
    },
    Case {
        name: "no block",
        text: b"route 0 1\n",
    },
    Case {
        name: "joint to no block",
        text: b"plain - 2.0\nplain 0.1 -\nroute 0 1\n",
    },
    Case {
        name: "joint to block 99",
        text: b"plain - 1.0\nplain 99.1 -\nroute 0 1\n",
    },
    Case {
        name: "joint to no end of a plain block",
        text: b"plain - 1.2\nplain 0.1 -\nroute 0 1\n",
    },
    Case {
        name: "joint to no end of a point",
        text: b"plain - 1.3\npoint 0.1 2.0 3.0\nplain 1.1 -\nplain 1.2 -\nroute 0 1 2\n",
    },
    Case {
        name: "joint to no end of a crossing",
        text: b"plain - 1.4\ncrossing 0.1 2.0 3.0 4.0\nplain 1.1 -\nplain 1.2 -\nplain 1.3 -\nroute 0 1 2\n",
    },
    Case {
        name: "joint to end 99",
        text: b"plain - 1.0\nplain 0.99 -\nroute 0 1\n",
    },
    Case {
        name: "plain with two outer ends",
        text: b"plain - 1.0\nplain 0.1 -\nplain - -\nroute 0 1\n",
    },
    Case {
        name: "point with an outer end",
        text: b"plain - 1.0\npoint 0.1 2.0 -\nplain 1.1 -\nroute 0 1 2\n",
    },
    Case {
        name: "crossing with an outer end",
        text: b"plain - 3.0\nplain 3.1 -\nplain - 3.2\ncrossing 0.1 1.0 2.1 -\nroute 0 3 1\n",
    },
    Case {
        name: "joint that is not mutual",
        text: b"plain - 1.0\nplain 0.1 2.0\nplain 0.1 -\nroute 0 1\n",
    },
    Case {
        name: "joint to an outer end",
        text: b"plain - 1.1\nplain 0.1 -\nroute 0 1\n",
    },
    Case {
        name: "joint to another end of the block",
        text: b"plain - 1.0\nplain 0.1 -\nplain 2.1 2.0\nroute 0 1\n",
    },
    Case {
        name: "joint of an end to itself",
        text: b"plain - 1.0\nplain 0.1 -\nplain 2.0 -\nroute 0 1\n",
    },
    Case {
        name: "two joints between two blocks",
        text: b"plain - 1.0\npoint 0.1 2.0 2.1\nplain 1.1 1.2\nroute 0 1\n",
    },
    Case {
        name: "route of one block",
        text: b"plain - 1.0\nplain 0.1 -\nroute 0\n",
    },
    Case {
        name: "route with no such block",
        text: b"plain - 1.0\nplain 0.1 -\nroute 0 1 2\n",
    },
    Case {
        name: "route with block 99",
        text: b"plain - 1.0\nplain 0.1 -\nroute 0 99\n",
    },
    Case {
        name: "block twice in a route",
        text: b"plain - 1.0\nplain 0.1 -\nroute 0 1 0\n",
    },
    Case {
        name: "block twice in a row",
        text: b"plain - 1.0\nplain 0.1 -\nroute 0 0\n",
    },
    Case {
        name: "first block with no outer end",
        text: b"plain - 1.0\nplain 0.1 2.0\nplain 1.1 -\nroute 1 2\n",
    },
    Case {
        name: "last block with no outer end",
        text: b"plain - 1.0\nplain 0.1 2.0\nplain 1.1 -\nroute 0 1\n",
    },
    Case {
        name: "neighbours not joined",
        text: b"plain - 1.0\nplain 0.1 -\nplain - 3.0\nplain 2.1 -\nroute 0 3\n",
    },
    Case {
        name: "block left out",
        text: b"plain - 1.0\nplain 0.1 2.0\nplain 1.1 -\nroute 0 2\n",
    },
    Case {
        name: "from left to right of a point",
        text: b"plain - 1.0\npoint 0.1 2.0 3.0\nplain 1.1 -\ncrossing 1.2 4.0 5.0 6.0\nplain 3.1 -\nplain 3.2 -\nplain 3.3 -\nroute 2 1 3 4\n",
    },
    Case {
        name: "across a crossing",
        text: b"plain - 1.0\npoint 0.1 2.0 3.0\nplain 1.1 -\ncrossing 1.2 4.0 5.0 6.0\nplain 3.1 -\nplain 3.2 -\nplain 3.3 -\nroute 4 3 5\n",
    },
    Case {
        name: "on behind an outer end",
        text: b"plain - 1.0\nplain 0.1 -\nplain - 3.0\nplain 2.1 -\nroute 0 1 2 3\n",
    },
    Case {
        name: "second route",
        text: b"plain - 1.0\npoint 0.1 2.0 3.0\nplain 1.1 -\ncrossing 1.2 4.0 5.0 6.0\nplain 3.1 -\nplain 3.2 -\nplain 3.3 -\nroute 0 1 2\nroute 5 3 4\n",
    },
    Case {
        name: "last route",
        text: b"plain - 1.0\npoint 0.1 2.0 3.0\nplain 1.1 -\ncrossing 1.2 4.0 5.0 6.0\nplain 3.1 -\nplain 3.2 -\nplain 3.3 -\nroute 0 1 2\nroute 0 1 3 4\nroute 5 3 6\nroute 4 3 1 0\nroute 0 1 3\n",
    },
];
