// What the runs of the tests write.

/// Asks, scripts, policies that are judged and followed, networks that are made, and words that
/// are refused. A block has what is written, `=` and the status, and then the words of each run
/// that writes that, after `>`. The runs go in this order: some read what one above stored.
pub(crate) const RUNS: &str = "\
answer 1 3 2 1.000000000000000000 1.000000000000000000 1
= 0
> ask triangle - 1 3 2
> ask triangle - 01 003 2
> ask blanks - 1 3 2
> ask triangle marked 1 3 2

answer 1 3 1 0.000000000000000000 0.000000000000000000 -
= 0
> ask triangle - 1 3 1
> ask triangle times 1 3 1

answer 3 3 0 1.000000000000000000 1.000000000000000000 -
= 0
> ask triangle - 3 3 0
> ask triangle times 3 3 0

answer 3 1 9 0.000000000000000000 0.000000000000000000 -
= 0
> ask triangle - 3 1 9
> ask triangle times 3 1 9

answer 1 3 1500 1.000000000000000000 1.000000000000000000 1
= 0
> ask triangle - 1 3 1500

answer 1 2 5 1.000000000000000000 1.000000000000000000 1
= 0
> ask parallel - 1 2 5

answer 1 2 1 1.000000000000000000 1.000000000000000000 1001
= 0
> ask many - 1 2 1

answer 1 1 0 1.000000000000000000 1.000000000000000000 -
= 0
> ask single - 1 1 0

refused 1 NoOrigin
= 1
> ask triangle - 4 3 1
> ask triangle - 0 0 0
> timed triangle 4 3 3 10 times 8 quick

refused 1 NoDest
= 1
> ask triangle - 3 4 65536
> timed triangle 1 0 3 10 times 8 quick

refused 1 Budget
= 1
> ask triangle - 1 3 65536
> make 1 2 2 1 65536
> timed triangle 1 3 65536 65536 times

refused words
= 2
> ask triangle times 1 3
>\x20
> ask triangle - 1 3 4294967296
> run triangle -
> checks triangle - note
> check road -
> check road - road_plan road_plan
> replay road - road_plan 1000001 1
> replay road - road_plan 1 4294967296
> replay road - road_plan 1
> make 1 1 2 1 20
> make 1 10001 10001 1 20
> make 1 3 2 1 20
> make 1 2 100001 1 20
> make 1 2 2 0 20
> make 1 2 2 1001 20
> make 1 2 10001 1000 20
> make 4294967296 2 2 1 20
> make 1 2 2 1 x
> make 1 2 2 1
> report triangle times names
> timed triangle 1 3 3 2 times
> timed triangle 1 3 3 10 times 8
> timed triangle 1 3 3 10 times 0 quick
> timed triangle 1 3 3 10 times x quick
> timed triangle 1 3 3 10 times 8 quick 8 times
> timed triangle 1 3 3 10 times 8 quick 7 times
> timed triangle 1 3 3 10
> timed triangle 1 3 3 99 - 1 - 2 - 3 - 4 - 5 - 6 - 7 - 8 - 9 - 10 - 11 - 12 - 13 - 14 - 15 - 16 - \
17 - 18 - 19 - 20 - 21 - 22 - 23 - 24 - 25 - 26 - 27 - 28 - 29 - 30 - 31 - 32 -

= 4
> ask nowhere times 1 3 2
> ask triangle nowhere 1 3 2
> run nowhere times note
> run triangle nowhere note
> run triangle times nowhere
> check road - nowhere
> replay road - nowhere 1 1
> report triangle times nowhere reported
> report triangle times names nowhere
> timed triangle 1 3 3 10 times 8 - 9 absent

refused hists ZeroTime 1
= 3
> ask zero - 9 9 9

refused graph NoProblem 0
= 3
> ask empty nowhere 1 1 0

refused graph BadLine 1
= 3
> ask unread - 1 1 0

refused graph TooManyNodes 1000001
= 3
> ask nodes - 1 1 0

refused graph ArcLimit 4000001
= 3
> ask arcs - 1 1 0

refused graph ArcBeforeProblem 1
= 3
> ask early - 1 1 0

refused graph SecondProblem 2
= 3
> ask second - 1 1 0

refused graph NodeRange 2
= 3
> ask range - 1 1 0

refused graph TooManyArcs 4
= 3
> ask more - 1 1 0

refused graph TooFewArcs 1
= 3
> ask fewer - 1 1 0

answer 1 3 3 1.000000000000000000 1.000000000000000000 3
= 0
> ask triangle lossy 1 3 3

answer 1 3 2 0.500000000000000000 0.500000000000000000 1
= 0
> ask triangle lossy 1 3 2
> ask triangle times 1 3 2

answer 1 2 9 0.750000000000000000 0.750000000000000000 1
= 0
> ask road late 1 2 9

answer 1 3 3 0.750000000000000000 0.750000000000000000 3
= 0
> ask triangle times 1 3 3
> ask looped times 1 3 3
> ask triangle further 1 3 3

answer 1 3 4 1.000000000000000000 1.000000000000000000 1
= 0
> ask triangle times 1 3 4

answer 1 3 2 0.111111111111111111 0.111111111111111112 1
= 0
> ask chain thirds 1 3 2

answer 1 2 4 1.000000000000000000 1.000000000000000000 1
= 0
> ask zero four 1 2 4

answer 1 3 33 0.484848484848484848 0.484848484848484849 1
= 0
> ask chain even 1 3 33

answer 1 3 50 0.875114784205693296 0.875114784205693297 1
= 0
> ask chain even 1 3 50

answer 1 3 70 1.000000000000000000 1.000000000000000000 1
= 0
> ask chain even 1 3 70

refused hists Header 0
= 3
> ask triangle empty 9 9 9
> ask triangle scale 9 9 9
> ask triangle twice 9 9 9
> check road empty empty
> replay road empty empty 1 1
> report triangle empty nowhere nowhere
> timed triangle 1 3 3 10 times 8 scale 9 absent

refused hists Fields 1
= 3
> ask triangle fields 9 9 9

refused hists Number 1
= 3
> ask triangle letter 9 9 9
> ask triangle byte 9 9 9

refused hists NoArc 1
= 3
> ask triangle no_arc 9 9 9

refused hists ZeroTick 1
= 3
> ask triangle no_tick 9 9 9

refused hists RepeatedTick 2
= 3
> ask triangle repeated 9 9 9

refused hists Sum 1
= 3
> ask triangle sum 9 9 9

answer 1 3 2 0.500000000000000000 0.500000000000000000 1
edited 2
answer 1 3 2 1.000000000000000000 1.000000000000000000 1
= 0
> run triangle times edited

refused 1 NoArc
edited 2
refused 3 Number
answer 1 3 3 0.750000000000000000 0.750000000000000000 1
= 1
> run triangle times losing

closed 1
answer 1 3 3 0.750000000000000000 0.750000000000000000 3
refused 3 NoArc
= 1
> run triangle times closing

closed 2
closed 3
answer 1 3 9 0.000000000000000000 0.000000000000000000 -
= 0
> run triangle times cut_off

edited 2
answer 1 3 2 0.000000000000000000 0.000000000000000000 -
= 0
> run triangle times emptied

refused 1 Word
refused 2 Count
refused 3 Number
refused 4 Sum
refused 5 ZeroTick
refused 6 RepeatedTick
refused 7 Count
= 1
> run triangle times faulty

route 3 3 0.500000000000000000 0.500000000000000000 2
route 3 3 0.750000000000000000 0.750000000000000000 1
refused 3 Broken 2
refused 4 NotThere
refused 5 NoLeg 1
refused 6 NoDest
refused 7 Budget
refused 8 Count
refused 9 Number
closed 2
route 3 3 0.000000000000000000 0.000000000000000000 2
= 1
> run triangle times routes

route 3 2 0.111111111111111111 0.111111111111111112 2
= 0
> run chain thirds chain_route

need 1 3 0.750000000000000000 9 3 3
need 3 1 0.000000000000000001 9 - -
need 3 3 1.000000000000000000 0 0 0
refused 4 NoOrigin
refused 5 NoDest
refused 6 Budget
refused 7 Number
edited 2
need 1 3 1.000000000000000000 9 2 2
answer 1 3 2 1.000000000000000000 1.000000000000000000 1
= 1
> run triangle times needs

need 1 3 0.111111111111111112 10 2 10
need 1 3 0.111111111111111112 9 2 -
= 0
> run chain thirds close_needs

= 0
> run triangle times empty
> run triangle times note
> report triangle times names note

stored p.pol
= 0
> run triangle times stored

stored b
refused 2 NoDest
refused 3 Count
= 1
> run triangle times bracket_stored

stored q
= 0
> run road - road_stored

accepted 1 3 3 0.750000000000000000
= 0
> check triangle times plan

rejected Value 2 1
= 1
> check triangle times value_plan
> replay triangle times value_plan 3 1

rejected Value 1 2
= 1
> check triangle times great_plan

rejected WrongTail 2 1
= 1
> check triangle times tail_plan
> check triangle times tail_bracket

rejected NoArc 2 1
= 1
> check triangle times arc_plan

rejected Size
= 1
> check triangle times size_plan
> check road - bracket

rejected Scale
= 1
> check triangle times scale_plan
> check triangle thirds bracket
> replay triangle times scale_plan 3 1

refused policy Truncated 92
= 3
> check triangle times cut_plan

refused policy Trailing 104
= 3
> check triangle times long_plan

refused policy Truncated 32
= 3
> check triangle times rows_plan

refused policy Range 1
= 3
> check triangle times range_plan

refused policy Order 2
= 3
> check triangle times order_plan

enclosed 1 3 3 0.750000000000000000 0.750000000000000000
= 0
> check triangle times bracket

enclosed 1 3 3 0.750000000000000000 1.000000000000000000
= 0
> check triangle times great_bracket

rejected Upper 2 1
= 1
> check triangle times upper_bracket

rejected Lower 2 1
= 1
> check triangle times lower_bracket

rejected Potential 2
= 1
> check triangle times first_bracket

refused policy Truncated 124
= 3
> check triangle times cut_bracket

refused policy Range 3
= 3
> check triangle times dest_bracket

refused policy Magic 0
= 3
> replay triangle times bracket 3 1
> check road - empty
> replay road - empty 1 1

accepted 1 2 5 1.000000000000000000
= 0
> check road - road_plan

accepted 1 2 4 0.000000000000000000
= 0
> check road - tight_plan
> check road - stuck_plan

trips 5 arrived 5 late 0 stuck 0 lost 0
= 0
> replay road - road_plan 5 7

trips 3 arrived 0 late 3 stuck 0 lost 0
= 0
> replay road - tight_plan 3 1

trips 3 arrived 0 late 0 stuck 3 lost 0
= 0
> replay road - stuck_plan 3 4294967295

stored l
= 0
> run road late lossy_stored

trips 1000 arrived 767 late 0 stuck 0 lost 233
= 0
> replay road late l 1000 7

trips 0 arrived 0 late 0 stuck 0 lost 0
= 0
> replay road late l 0 7

made 2 2 16 236
answer 1 2 20 1.000000000000000000 1.000000000000000000 1
accepted 1 2 20 1.000000000000000000
= 0
> make 1 2 2 1 20

made 4 9 8 152
answer 1 4 10 0.324942679000000000 0.324942679000000000 1
accepted 1 4 10 0.324942679000000000
= 0
> make 7 4 9 5 10

made 5 12 14 248
answer 1 5 16 0.265055931811919640 0.265055931811919640 11
accepted 1 5 16 0.265055931811919640
= 0
> make 3 5 12 4 16

made 2 2 0 32
answer 1 2 0 0.000000000000000000 0.000000000000000000 -
accepted 1 2 0 0.000000000000000000
= 0
> make 1 2 2 1 0

refused 1 TableCells 108939105
= 1
> make 1 10000 10000 1 65535

refused 1 BroadCells 64518912
= 1
> make 1 2 2000 33 65535

{\"arc\":3,\"budget\":3,\"dest\":3,\"from\":\"Home\",\"kind\":\"answer\",\
\"lower\":750000000000000000,\"origin\":1,\"to\":\"Work\",\"upper\":750000000000000000}
{\"cause\":\"Place\",\"kind\":\"refused\",\"line\":2}
{\"arc\":null,\"budget\":9,\"dest\":1,\"from\":\"Work\",\"kind\":\"answer\",\"lower\":0,\
\"origin\":3,\"to\":\"Home\",\"upper\":0}
{\"arc\":2,\"kind\":\"edited\"}
{\"cause\":\"NoArc\",\"kind\":\"refused\",\"line\":5}
{\"kind\":\"stored\",\"name\":\"@Work\"}
{\"confidence\":750000000000000000,\"dest\":3,\"early\":2,\"from\":\"Home\",\"kind\":\"need\",\
\"most\":9,\"origin\":1,\"sure\":2,\"to\":\"Work\"}
{\"arcs\":1,\"budget\":3,\"dest\":3,\"kind\":\"route\",\"lower\":750000000000000000,\
\"to\":\"Work\",\"upper\":750000000000000000}
{\"arc\":2,\"kind\":\"closed\"}
{\"cause\":\"Word\",\"kind\":\"refused\",\"line\":10}
{\"cause\":\"Place\",\"kind\":\"refused\",\"line\":11}
{\"arc\":null,\"budget\":3,\"dest\":3,\"from\":null,\"kind\":\"answer\",\"lower\":0,\
\"origin\":2,\"to\":\"Work\",\"upper\":0}
{\"arcs\":2,\"budget\":3,\"dest\":3,\"kind\":\"route\",\"lower\":0,\"to\":\"Work\",\"upper\":0}
= 1
> report triangle times names reported

refused names RepeatedName 2
= 3
> report triangle times repeated_names reported

refused names NodeRange 2
= 3
> report triangle times far_names reported

refused names Fields 2
= 3
> report triangle times half_names nowhere

timed 1 3 3 10 1.000000000000000000 1.000000000000000000 1
= 0
> timed triangle 1 3 3 10 times 8 quick

timed 1 3 3 7 0.750000000000000000 0.750000000000000000 3
= 0
> timed triangle 1 3 3 7 times 8 quick

timed 1 3 3 3 0.750000000000000000 0.750000000000000000 3
= 0
> timed triangle 1 3 3 3 times

timed 3 1 3 10 0.000000000000000000 0.000000000000000000 -
= 0
> timed triangle 3 1 3 10 - 8 -

refused hists ScaleDiffers 1
= 3
> timed triangle 1 3 3 10 times 8 -

refused hists ScaleDiffers 2
= 3
> timed triangle 1 3 3 10 times 8 quick 9 - 10 thirds

timed 1 3 3 99 1.000000000000000000 1.000000000000000000 1
= 0
> timed triangle 1 3 3 99 - 1 - 2 - 3 - 4 - 5 - 6 - 7 - 8 - 9 - 10 - 11 - 12 - 13 - 14 - 15 - 16 - \
17 - 18 - 19 - 20 - 21 - 22 - 23 - 24 - 25 - 26 - 27 - 28 - 29 - 30 - 31 -";

/// Runs on inputs of the greatest length, and on longer ones.
pub(crate) const LONG_RUNS: &str = "\
answer 1 3 2 1.000000000000000000 1.000000000000000000 1
= 0
> ask whole - 1 3 2

refused graph TooLong 67108864
= 3
> ask long - 1 3 2

refused hists TooLong 67108864
= 3
> ask triangle long 1 3 2

refused script TooLong 67108864
= 3
> run triangle - long";

/// The words of a run, and what it writes where no call fails.
pub(crate) type Run = (&'static str, &'static str);

const SEVERAL: Run = (
    "run triangle times several",
    "\
answer 1 3 2 0.500000000000000000 0.500000000000000000 1
edited 2
answer 1 3 2 1.000000000000000000 1.000000000000000000 1
stored p
",
);

const REFUSED: Run = ("no words of a request", "refused words\n");

const TOO_EARLY: &str = "answer 1 3 1 0.000000000000000000 0.000000000000000000 -\n";

const ASKED: Run = ("ask triangle - 1 3 1", TOO_EARLY);

const ASKED_TIMES: Run = ("ask triangle times 1 3 1", TOO_EARLY);

const SCRIPT: Run = ("run triangle - tight", TOO_EARLY);

const SCRIPT_TIMES: Run = ("run triangle times tight", TOO_EARLY);

const REPLAYED: Run = (
    "replay road - road_plan 5 7",
    "trips 5 arrived 5 late 0 stuck 0 lost 0\n",
);

const MADE: Run = (
    "make 1 2 2 1 20",
    "\
made 2 2 16 236
answer 1 2 20 1.000000000000000000 1.000000000000000000 1
accepted 1 2 20 1.000000000000000000
",
);

/// The call of the desk that fails and the put that fails, counted from 1 and 0 for none, and the
/// most bytes of a put; how many bytes are written then, the status, and whether `p` is stored.
pub(crate) type Fault = (u32, u32, u32, usize, u8, bool);

/// Runs in which a call fails. The calls of a desk are counted together: each input is loaded once,
/// in the order of the words, nothing else is, and a store comes after the loads.
pub(crate) const FAULTS: [(Run, Fault); 30] = [
    (SEVERAL, (0, 0, 1000, 132, 0, true)),
    (SEVERAL, (1, 0, 1000, 0, 4, false)),
    (SEVERAL, (2, 0, 1000, 0, 4, false)),
    (SEVERAL, (3, 0, 1000, 0, 4, false)),
    (SEVERAL, (4, 0, 1000, 123, 5, false)),
    (SEVERAL, (0, 1, 1000, 0, 5, false)),
    (SEVERAL, (0, 2, 1000, 57, 5, false)),
    (SEVERAL, (0, 3, 1000, 66, 5, false)),
    (SEVERAL, (0, 4, 1000, 123, 5, true)),
    (SEVERAL, (0, 1, 1, 0, 5, false)),
    (SEVERAL, (0, 10, 1, 9, 5, false)),
    (SEVERAL, (0, 58, 1, 57, 5, false)),
    (SEVERAL, (0, 124, 1, 123, 5, true)),
    (REFUSED, (0, 1, 1000, 0, 5, false)),
    (ASKED, (1, 0, 1000, 0, 4, false)),
    (ASKED, (2, 0, 1000, 57, 0, false)),
    (ASKED_TIMES, (2, 0, 1000, 0, 4, false)),
    (ASKED_TIMES, (3, 0, 1000, 57, 0, false)),
    (SCRIPT, (2, 0, 1000, 0, 4, false)),
    (SCRIPT, (3, 0, 1000, 57, 0, false)),
    (SCRIPT_TIMES, (3, 0, 1000, 0, 4, false)),
    (SCRIPT_TIMES, (4, 0, 1000, 57, 0, false)),
    (REPLAYED, (2, 0, 1000, 0, 4, false)),
    (REPLAYED, (3, 0, 1000, 40, 0, false)),
    (REPLAYED, (0, 1, 1000, 0, 5, false)),
    (REPLAYED, (0, 7, 1, 6, 5, false)),
    (MADE, (1, 0, 1000, 111, 0, false)),
    (MADE, (0, 1, 1000, 0, 5, false)),
    (MADE, (0, 2, 1000, 16, 5, false)),
    (MADE, (0, 3, 1000, 74, 5, false)),
];
