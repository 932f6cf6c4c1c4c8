// The files that the runs of the tests read.

/// Roads from 1 to 2 and from 2 to 3 in one tick each, and from 1 to 3 in three.
pub(crate) const TRIANGLE: &[u8] = b"p sp 3 3\na 1 2 1\na 2 3 1\na 1 3 3\n";

/// The policy of the triangle from 1 to 3 in 3 ticks.
pub(crate) const TRIANGLE_POLICY: &[u8] =
    b"SOTAPOL1\0\0\0\x03\0\0\0\x03\0\0\0\x01\0\0\0\x03\0\0\0\x04\0\0\0\x02\
\0\0\0\x01\0\0\0\x02\0\0\0\x02\
\0\0\0\x01\x06\xf0\x5b\x59\xd3\xb2\0\0\
\0\0\0\x03\x0a\x68\x89\x06\xbd\x8b\0\0\
\0\0\0\x02\0\0\0\x01\0\0\0\x02\
\0\0\0\x02\x06\xf0\x5b\x59\xd3\xb2\0\0\
\0\0\0\x02\x06\xf0\x5b\x59\xd3\xb2\0\0";

/// The bracket of the triangle from 1 to 3 in 3 ticks.
pub(crate) const TRIANGLE_BRACKET: &[u8] =
    b"SOTAPOL2\0\0\0\x03\0\0\0\x03\0\0\0\x01\0\0\0\x03\0\0\0\x04\
\0\0\0\x02\0\0\0\x02\
\0\0\0\x01\x06\xf0\x5b\x59\xd3\xb2\0\0\x06\xf0\x5b\x59\xd3\xb2\0\0\
\0\0\0\x03\x0a\x68\x89\x06\xbd\x8b\0\0\x0a\x68\x89\x06\xbd\x8b\0\0\
\0\0\0\x01\0\0\0\x02\
\0\0\0\x02\x06\xf0\x5b\x59\xd3\xb2\0\0\x06\xf0\x5b\x59\xd3\xb2\0\0\
\0\0\0\x02\x06\xf0\x5b\x59\xd3\xb2\0\0\x06\xf0\x5b\x59\xd3\xb2\0\0\
\0\0\0\0\0\0\0\0";

/// The policy of a road of 5 ticks, for 5 ticks.
pub(crate) const ROAD_POLICY: &[u8] =
    b"SOTAPOL1\0\0\0\x02\0\0\0\x02\0\0\0\x01\0\0\0\x05\0\0\0\x01\0\0\0\x01\
\0\0\0\x01\0\0\0\x05\0\0\0\x01\
\0\0\0\x01\x0d\xe0\xb6\xb3\xa7\x64\0\0";

/// The same for 4 ticks, and one without a row.
const TIGHT_POLICY: &[u8] = b"SOTAPOL1\0\0\0\x02\0\0\0\x02\0\0\0\x01\0\0\0\x04\0\0\0\x01\0\0\0\x01\
\0\0\0\x01\0\0\0\x04\0\0\0\x01\
\0\0\0\x01\0\0\0\0\0\0\0\0";

const STUCK_POLICY: &[u8] = b"SOTAPOL1\0\0\0\x02\0\0\0\x02\0\0\0\x01\0\0\0\x04\0\0\0\x01\0\0\0\0";

/// Two roads in a row that take each tick from 1 to 33 with the same mass.
const EVEN_TIMES: &[u8] = b"\
arc,tick,mass/33\n1,1,1\n1,2,1\n1,3,1\n1,4,1\n1,5,1\n1,6,1\n1,7,1\n1,8,1\n1,9,1\n1,10,1\n\
1,11,1\n1,12,1\n1,13,1\n1,14,1\n1,15,1\n1,16,1\n1,17,1\n1,18,1\n1,19,1\n1,20,1\n1,21,1\n\
1,22,1\n1,23,1\n1,24,1\n1,25,1\n1,26,1\n1,27,1\n1,28,1\n1,29,1\n1,30,1\n1,31,1\n1,32,1\n\
1,33,1\n2,1,1\n2,2,1\n2,3,1\n2,4,1\n2,5,1\n2,6,1\n2,7,1\n2,8,1\n2,9,1\n2,10,1\n2,11,1\n\
2,12,1\n2,13,1\n2,14,1\n2,15,1\n2,16,1\n2,17,1\n2,18,1\n2,19,1\n2,20,1\n2,21,1\n2,22,1\n\
2,23,1\n2,24,1\n2,25,1\n2,26,1\n2,27,1\n2,28,1\n2,29,1\n2,30,1\n2,31,1\n2,32,1\n2,33,1\n";

/// Each by its name.
pub(crate) const FILES: [(&str, &[u8]); 62] = [
    // Graphs.
    ("triangle", TRIANGLE),
    ("road", b"p sp 2 1\na 1 2 5\n"),
    ("parallel", b"p sp 2 2\na 1 2 5\na 1 2 5\n"),
    (
        "blanks",
        b"c x\r\n\r\np\tsp 3 3 \r\n a 1\t2 1\r\na 2 3 1\r\n\t\r\na 1 3 3\r\n",
    ),
    ("single", b"cx\np sp 1 0"),
    ("chain", b"p sp 3 2\na 1 2 7\na 2 3 7\n"),
    ("looped", b"p sp 3 4\na 1 2 1\na 2 3 1\na 1 3 3\na 1 1 1\n"),
    ("zero", b"p sp 2 1\na 1 2 0\n"),
    // Graphs that are refused.
    ("empty", b""),
    ("unread", b"p sp 4294967296 1"),
    ("nodes", b"p sp 1000001 0"),
    ("arcs", b"p sp 1 4000001"),
    ("early", b"a 1 1 1"),
    ("second", b"p sp 1 0\np sp 1 0"),
    ("range", b"p sp 2 1\na 1 3 1"),
    ("more", b"p sp 3 2\na 1 2 1\na 2 3 1\na 1 3 3\n"),
    ("fewer", b"p sp 3 2\na 1 2 1\n"),
    // Histograms. In the first ones, over 4, the second road of the triangle takes one or three
    // ticks, and the third three or five.
    ("times", b"arc,tick,mass/4\n2,1,2\n2,3,2\n3,3,3\n3,5,1\n"),
    ("quick", b"arc,tick,mass/4\n2,1,4\n3,3,3\n3,5,1\n"),
    (
        "further",
        b"arc,tick,mass/4\n2,1,2\n2,3,2\n3,3,3\n3,5,1\n1,0,0\n",
    ),
    ("lossy", b"arc,tick,mass/4\n1,1,2\n1,2,1"),
    ("late", b"arc,tick,mass/4\n1,5,3"),
    ("thirds", b"arc,tick,mass/3\n1,1,1\n1,9,2\n2,9,2\n2,1,1\n"),
    ("four", b"arc,tick,mass/1\n1,4,1"),
    ("even", EVEN_TIMES),
    ("marked", b"\xef\xbb\xbfarc,tick,mass/4\n"),
    // Histograms that are refused.
    ("scale", b"arc,tick,mass/1000000001"),
    ("twice", b"\xef\xbb\xbf\xef\xbb\xbfarc,tick,mass/4\n"),
    ("fields", b"arc,tick,mass/4\n1,2"),
    ("letter", b"arc,tick,mass/4\n1,2,x"),
    ("byte", b"arc,tick,mass/4\n1,2,\xff"),
    ("no_arc", b"arc,tick,mass/4\n9,0,0"),
    ("no_tick", b"arc,tick,mass/4\n1,0,1"),
    ("repeated", b"arc,tick,mass/4\n1,2,1\n1,2,3"),
    ("sum", b"arc,tick,mass/4\n1,1,2\n1,2,3"),
    // Scripts.
    ("edited", b"ask 1 3 2\nedit 2 1:4\nask 1 3 2\n"),
    ("losing", b"edit 9 1:4\nedit 2 1:3\nask 1 3 x\nask 1 3 3"),
    ("closing", b"close 1\nask 1 3 3\nclose 9"),
    ("cut_off", b"close 2\nclose 3\nask 1 3 9"),
    ("emptied", b"edit 2 1:0 0:0\nask 1 3 2"),
    (
        "faulty",
        b"go\nask 1 3\nedit 2 1-4\nedit 9 1:5\nedit 2 0:1 1:1\nedit 2 1:1 1:1\nclose",
    ),
    (
        "routes",
        b"route 3 3 1 2\nroute 3 3 3\nroute 3 3 2 1\nroute 2 3 1 2\nroute 3 3 9\n\
        route 4 3 3\nroute 3 65536 3\nroute 3 3\nroute 3 3 x\nclose 2\nroute 3 3 1 2\n",
    ),
    ("chain_route", b"route 3 2 1 2\n"),
    (
        "needs",
        b"need 1 3 0.750000000000000000 9\nneed 3 1 0.000000000000000001 9\n\
        need 3 3 1.000000000000000000 0\nneed 4 3 0.750000000000000000 9\n\
        need 1 4 0.750000000000000000 65536\nneed 1 3 0.750000000000000000 65536\n\
        need 1 3 0.75 9\nedit 2 1:4\nneed 01 3 1.000000000000000000 9\nask 1 3 2\n",
    ),
    (
        "close_needs",
        b"need 1 3 0.111111111111111112 10\nneed 1 3 0.111111111111111112 9\n",
    ),
    ("note", b"\n# note\n"),
    ("tight", b"ask 1 3 1"),
    ("stored", b"policy 1 3 3 p.pol"),
    (
        "bracket_stored",
        b"bracket 1 3 3 b\nbracket 1 4 3 c\nbracket 1 3 3",
    ),
    ("road_stored", b"policy 1 2 5 q"),
    ("lossy_stored", b"policy 1 2 9 l"),
    (
        "several",
        b"ask 1 3 2\nedit 2 1:4\nask 1 3 2\npolicy 1 3 3 p\n",
    ),
    (
        "reported",
        b"ask @Home @Work 3\nask @Shop 3 3\nask 3 1 9\nedit 2 1:4\nclose 9\n\
        policy @Home 3 3 @Work\nneed @Home @Work 0.750000000000000000 9\nroute @Work 3 3\n\
        close 2\ngo @Home\nask 1 @Sh\xff 9 9\nask 2 3 3\nroute @Work 3 1 2\n",
    ),
    // Names of places, and some that are refused.
    ("names", b"# places\n1 Home\n3 Work\n\n1 House\n"),
    ("repeated_names", b"1 Home\n2 Home\n"),
    ("far_names", b"1 Home\n4 Far"),
    ("half_names", b"1 Home\n2"),
    // Policies.
    ("plan", TRIANGLE_POLICY),
    ("bracket", TRIANGLE_BRACKET),
    ("road_plan", ROAD_POLICY),
    ("tight_plan", TIGHT_POLICY),
    ("stuck_plan", STUCK_POLICY),
];

/// The triangle's bracket with other bytes at a place, cut or filled up to a length, by its name.
pub(crate) const CHANGED_BRACKETS: [(&str, usize, &[u8], usize); 7] = [
    ("upper_bracket", 101, b"\xb1\xff\xff", 132),
    (
        "great_bracket",
        68,
        b"\xff\xff\xff\xff\xff\xff\xff\xff",
        132,
    ),
    ("lower_bracket", 95, b"\x01", 132),
    ("tail_bracket", 87, b"\x01", 132),
    ("first_bracket", 79, b"\x02", 132),
    ("cut_bracket", 0, b"", 131),
    ("dest_bracket", 131, b"\x01", 152),
];

/// The triangle's policy with other bytes at a place, cut or filled up to a length, by its name.
pub(crate) const CHANGED: [(&str, usize, &[u8], usize); 11] = [
    ("value_plan", 91, b"\x01", 104),
    ("great_plan", 48, b"\xff\xff\xff\xff\xff\xff\xff\xff", 104),
    ("tail_plan", 83, b"\x01", 104),
    ("arc_plan", 83, b"\x09", 104),
    ("size_plan", 11, b"\x04", 104),
    ("scale_plan", 27, b"\x05", 104),
    ("cut_plan", 0, b"", 103),
    ("long_plan", 0, b"", 105),
    ("rows_plan", 28, b"\xff\xff\xff\xff", 32),
    ("range_plan", 36, b"\xff\xff\xff\xff\xff\xff\xff\xff", 104),
    ("order_plan", 68, b"\0\0\0\x01", 104),
];
