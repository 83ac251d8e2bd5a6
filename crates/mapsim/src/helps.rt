// What `--help` says after the options. A stored case wants a line for each fault that the program can print, with the
// code and the sentence of the fault's type.

use us_command_line::HelpTexts;

/// What `--help` says after the options.
pub const HELP_TEXTS: HelpTexts = HelpTexts {
    program: PROGRAM,
    replay: REPLAY,
    check: CHECK,
    lint: LINT,
    dump: DUMP,
    pipe: PIPE,
};

const PROGRAM: &str = "\
Without a subcommand, mapsim does what `pipe` does. The --help of each subcommand has its formats,
units and faults.

Example, from the top of the repository:
  mapsim replay --config examples/plant.toml --trace examples/plant.csv --rounds 4 \\
      --maps /tmp/maps --report /tmp/report
  mapsim check --config examples/plant.toml --trace examples/plant.csv --rounds 4 \\
      --maps /tmp/maps --report /tmp/report

Where input is refused, `mapsim lint` finds all its errors by line, and says what is wanted there:
  mapsim lint --config examples/plant.toml --trace examples/plant.csv --rounds 4

Exit status: 0 success, 1 `check` found a broken rule or `lint` warnings alone, 2 usage error,
3 faulty input, 4 file or stream error, 5 out of memory.";

const REPLAY: &[&str] = &[
    "\
Example, from the top of the repository:
  mapsim replay --config examples/plant.toml --trace examples/plant.csv --rounds 4 \\
      --maps /tmp/maps --report /tmp/report

It prints one line: rounds, G lines, M lines, and the three counts of the U line.
  rounds 4 granted 11 missed 0 unknown 0 not_requestable 1 late 0
",
    MORE_WORKERS,
    "
The maps file has a record for each round and channel: the round (4 bytes, big-endian), the length
of the MAP body in bytes (2 bytes, big-endian), and the body.
",
    TRACE,
    REPORT,
    UNITS,
    FAULTS,
    CONFIG_FAULTS,
    ROUNDS,
    WORKERS,
    TRACE_FAULTS,
    FAILED,
    "  fault RU4 N       the maps file failed after N rounds\n",
    "  fault RU5 N       the report failed after N rounds\n",
    FILES,
    MEMORY,
];

const CHECK: &[&str] = &[
    "\
Example, from the top of the repository, after the one of `replay`:
  mapsim check --config examples/plant.toml --trace examples/plant.csv --rounds 4 \\
      --maps /tmp/maps --report /tmp/report

It prints `holds` and exits with 0 if both files keep all rules. If not, it exits with 1 and prints
the first rule that is broken, and three numbers that say where it is broken first.
  broken P3 1 1 150

The rules, in the order in which they are checked, each with its three numbers:
  P1  The maps file consists of whole records, each with a well-formed MAP body.
      0, 0, index of the first record that is not
  P2  There is one record for each round and channel, in order. Each has the right round, channel id,
      UCD Count, Alloc Start Time, Ack Time, backoffs and length.
      0, 0, index of the first record that fails, is missing or is one too many
  P3  The reserves and the report's grants lie inside the MAP, no minislot has two of them, and the
      elements of the MAP are these and the gaps between them.
      round, channel, first minislot where this fails; a line of a round or channel that isn't in
      the run comes first: its round, its channel, 0
  P4  Each unsolicited grant, poll and station maintenance is granted once in its window, or missed
      once in the round in which the window ends, and the report has no other lines of these kinds.
      An interval that begins while its flow is silent has one poll in place of its grants.
      round, channel, id of the flow or station
  P5  No flow is credited more than its rate and its burst allow, in any span of rounds.
      last round of the span, 0, id of the flow
  P6  Each credit was requested by that SID cluster and is what its grant carries, and the F, A and U
      lines are right at the end of the run.
      round, channel or 0 for all channels together, id of the flow; for F, A and U lines the number
      of rounds, 0, and the id of the flow or 0

Indices, minislots and rounds are counted from 0.
",
    TRACE,
    REPORT,
    UNITS,
    FAULTS,
    CONFIG_FAULTS,
    ROUNDS,
    TRACE_FAULTS,
    "  fault CK1 N       line N of the report, counted from 1, has none of the forms above\n",
    FAILED,
    FILES,
    MEMORY,
];

const LINT: &[&str] = &[
    "\
Example, from the top of the repository:
  mapsim lint --config examples/plant.toml --trace examples/plant.csv --rounds 4

It prints one line for each finding, and exits with 0 if there is none, with 1 if all are warnings,
and with 3 if one is an error.
  examples/plant.csv:6:1: warning: sid: SID 295 on channel 1 is of flow 3 (id 4), which is ..

The lines. FILE is the path as it was given, and COLUMN is 1 if only the line is known:
  FILE:LINE:COLUMN: error CODE: TEXT
                    what is wrong, and what is wanted. CODE is that of the fault which the other
                    subcommands answer, as C3 of `fault C3 flow 2`
  FILE:LINE:COLUMN: warning: TEXT
                    what is accepted, but looks wrong; of one kind at most ten
  FILE: error CODE: TEXT
                    a rule of `check` that is broken where there is no line to name
  FILE: N more errors
                    where there are more than 50
  FILE: note: N rounds take in all rows
                    of a trace without --rounds, which is judged for as many rounds as fit. It is
                    no finding

First comes the error that the other subcommands answer, and then all others by file and line.
--config is looked at first, then --trace, then --maps and --report by the rules of `check`. Where
one of them has an error, those behind it aren't read.

It warns of
  the configuration: a lead as long as the run; windows in which the grant has no room beside the
  reserves; calendars that ask for over 100 assignments in a MAP
  the trace: SIDs that no flow has on that channel, or whose flow takes no such rows; late rows;
  ticks that go far back or look like microseconds; flows that no row names
",
    TRACE,
    REPORT,
    UNITS,
    "
A fault is one line on standard error, and then no finding is printed.
Status 3:
",
    ROUNDS,
    FAILED,
    FILES,
    MEMORY,
];

const DUMP: &[&str] = &[
    "\
Example, from the top of the repository, after the one of `replay`:
  mapsim dump --maps /tmp/maps

It prints one line for each element of each MAP, in the order of the file:
  round channel offset length sid iuc

If its output is closed early, as by `head`, it ends with `fault io output` and status 4.

Units:
  rounds            round, counted from 0
  minislots         offset, counted from the start of the MAP, and length, up to the next element;
                    the length of the Null (IUC 7) and of the elements after it is 0

A fault is one line on standard error. N is the index of a record, counted from 0; the lines of the
records before it are printed. The whole file is checked for M11 before the first line.
Status 3, the input has a fault:
",
    MAP_FAULTS,
    FAILED,
    "  fault io NAME     the file or stream failed: maps or output\n",
    MEMORY,
];

const PIPE: &[&str] = &[
    "\
Example, from the top of the repository:
  (cat examples/plant.toml; echo %%; cat examples/plant.csv) | mapsim pipe --rounds 4

It prints one line for each element of each MAP, with offset and length in minislots, and then the
report:
  round channel offset length sid iuc
",
    MORE_WORKERS,
    "
If its output is closed early, as by `head`, it ends with `fault io output` and status 4.
",
    TRACE,
    REPORT,
    UNITS,
    FAULTS,
    "  fault pipe        no line `%%`, or over 37,748,740 bytes\n",
    CONFIG_FAULTS,
    ROUNDS,
    WORKERS,
    TRACE_FAULTS,
    FAILED,
    "  fault io NAME     the stream failed: input or output\n",
    MEMORY,
];

/// How many workers there are.
const MORE_WORKERS: &str = "
More workers help only where channels have dozens of grants per round. There are never more than
channels, or than requests of one round, whichever are more. The output is the same.
";

/// The trace.
const TRACE: &str = "
The trace has one of two headers:
  tick,channel,sid,units
                    each row is a request
  tick,channel,sid,units,kind
                    kind 0 is a request; kind 1 says that a flow of type 5 (UGS-AD) falls silent,
                    kind 2 that it is active again, both with 0 units
";

/// The report.
const REPORT: &str = "
The report:
  G,round,channel,entry,id,i,k,sid,iuc,start,slots,credit
                    a grant or a poll. entry: ugs is a grant of type 6, ad a grant or poll of type 5,
                    rtp and nrtp are polls of types 4 and 3, station is station maintenance, and req
                    is a grant for a request. id: the flow or station. i, k: the interval and the
                    number within it; for req the SID cluster and 0. credit: bytes without the
                    segment header
  M,round,channel,entry,id,i,k
                    a grant, poll or station maintenance that was missed
  F,flow,cluster,outstanding,units
                    what a SID cluster still requests, and what its flow's bucket holds
  A,flow,active
                    whether a flow of type 5 is active at the end: 1 active, 0 silent
  U,unknown,not_requestable,late
                    rows of the trace that were not used: the SID is unknown on that channel; its
                    flow can't request; after the last round
";

/// The units of configuration, trace and report.
const UNITS: &str = "
Units; docs/FORMATS.md has each key and field:
  ticks             tick, round_ticks, lead_ticks; a tick is 6.25 microseconds
  microseconds      start_us, interval_us, jitter_us
  minislots         start, counted from the start of the MAP, slots, and the keys in _minislots; a
                    minislot has 2^minislot_log2 ticks
  rounds            round, counted from 0, maintenance_every
  bytes             burst, unit, grant_bytes, fec_k, 2 * fec_t, credit, outstanding
  `unit` bytes      units of the trace
  1/1,280,000 byte  units of the report, `-` where the flow has no rate
  bits a second     rate, min_rate
  160 ksym/s        2^rate_log2, as 5 for 5,120 ksym/s
  symbols           preamble, guard
";

/// The heading of the faults of input.
const FAULTS: &str = "
A fault is one line on standard error. PLACE is a table and its index in the file, counted from 0:
`flow 2` is the third [[flow]], whatever its id. N counts records from 1, with the header.
`mapsim lint --config F` names the line and the key of such a fault, and with --trace F its row.
Status 3, the input has a fault:
";

/// The heading of the faults of files and streams.
const FAILED: &str =
    "Status 4, a file or stream failed; check its path, its permissions and the free space:\n";

/// The line of files, and of standard output beside them.
const FILES: &str =
    "  fault io NAME     the file or stream failed: config, trace, maps, report or output\n";

/// The end of each help.
const MEMORY: &str = "Status 5:\n  fault memory      out of memory";

/// The faults of a configuration.
const CONFIG_FAULTS: &str = "  fault C1          not a TOML document of at most 4,194,304 bytes
  fault C2 PLACE    a key is missing in PLACE
  fault C3 PLACE    a value is out of its range, or a key is unknown, in PLACE
  fault C4 PLACE    an id in channels or channel that no channel has, in PLACE
  fault C5 PLACE    a duplicate id, or a duplicate in channels, in PLACE
  fault C6 PLACE    a SID in clusters is another cluster's on the same channel in PLACE
  fault C7 PLACE    a list in clusters doesn't have one SID for each of channels in PLACE
  fault C8 PLACE    round_ticks isn't a multiple of the minislot, minislot_log2, of PLACE
  fault C9 PLACE    contention_minislots and maintenance_minislots don't fit in the MAPs of PLACE
  fault C10 PLACE   jitter_us is not below interval_us in PLACE
  fault C11 PLACE   grant_bytes, a poll or station_minislots is longer than the MAP in PLACE
  fault C12 PLACE   headers is false with several channels in PLACE
  fault C14 PLACE   min_rate is above rate in PLACE
";

/// The faults of the numbers of a run.
const ROUNDS: &str =
    "  fault RU1         no rounds, or more than a run has ticks for (67,108,864)\n";

const WORKERS: &str = "  fault RU2         the workers are not 1 to 64\n";

/// The faults of a trace.
const TRACE_FAULTS: &str = "  fault TR1         the first record is not the header
  fault TR2 N       record N doesn't have as many fields as the header
  fault TR3 N       record N has a field that isn't a number in its range, or is a mark with units
  fault TR4         the trace is too large
";

/// The faults of a maps file.
const MAP_FAULTS: &str = "  fault M1 N        the body has under 16 bytes
  fault M2 N        the length is not that of the counted elements
  fault M3 N        Reserved is not 0
  fault M4 N        over 240 elements
  fault M5 N        no Null, or one out of place
  fault M6 N        offsets do not rise up to the Null
  fault M7 N        an element after the Null has its IUC or another offset
  fault M8 N        a backoff is over 15
  fault M9 N        the first offset is not 0
  fault M11         the file ends inside a record
";
