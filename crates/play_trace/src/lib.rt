// The trace of a recorded session (02 §6): its steps, whether it is well formed, and each step. What a trace means is in specs/Reading.antt.
#![tactic(auto)]

ghost use Rattle.std.specs.Prelude.{◌≡◌, true, cond, ◌+◌, ◌*◌, ◌≤◌, ◌<◌, eqb, ltb, length, get_or, []};
ghost use Rattle.play_trace.specs.Bits.{bits};
ghost use Rattle.play_trace.specs.Steps.{uses, fields, first_bad, step_of, no_step};
ghost use Rattle.play_trace.specs.Steps.Field.{the_file, the_position, the_length, the_fill};
ghost use Rattle.play_trace.specs.Reading.{fields_from, numbers_at, read_trace, tell, calls_told, steps_of, names_of};

// What create uses of a call: the record length.
#[derive(Clone, Copy)]
pub struct CreateWith {
    pub length: usize,
}

// What the writes use: the position, the record length and the byte that is written.
#[derive(Clone, Copy)]
pub struct WriteWith {
    pub position: usize,
    pub length: usize,
    pub fill: u8,
}

// What allot uses: the sector, which stands where other calls have their position.
#[derive(Clone, Copy)]
pub struct AllotWith {
    pub sector: usize,
}

// What read uses: the position and the record length.
#[derive(Clone, Copy)]
pub struct ReadWith {
    pub position: usize,
    pub length: usize,
}

// One of seven calls, with its own numbers. Trim and kill have none.
#[derive(Clone, Copy)]
pub enum Call {
    Create(CreateWith),
    SequentialWrite(WriteWith),
    RandomWrite(WriteWith),
    Allot(AllotWith),
    Trim,
    Kill,
    Read(ReadWith),
}

// A step of the playback: a call on the file of that number.
#[derive(Clone, Copy)]
pub struct Step {
    pub file: usize,
    pub call: Call,
}

// The six numbers of a call as the trace has them.
#[derive(Clone, Copy)]
pub struct Numbers {
    pub operation: usize,
    pub file: usize,
    pub position: usize,
    pub length: usize,
    pub fill: u8,
    pub zero: usize,
}

// What the check of a trace tells: of a well-formed one how many calls it has; of any other the place of its first fault, `byte` whole bytes and
// `bit` bits behind its beginning. What has no value is 0. (No Result: `tell` is a definition over these fields, by which play_session says what
// is refused, and play_samples' theorems name them.)
#[derive(Clone, Copy)]
pub struct Checked {
    pub well: bool,
    pub calls: usize,
    pub byte: usize,
    pub bit: usize,
}

// The numbers of the call that starts at byte `at`. (Its bytes one by one: a pattern over them would need an arm for another length.)
fn numbers_at(trace: &[u8], at: usize) -> Numbers
    requires { at + 7 ≤ length trace.now }
    ensures { result ≡ numbers_at (bits trace.now) (8 * at) }
{
    let b0 = usize::from(trace[at]);
    let b1 = usize::from(trace[at + 1]);
    let b2 = usize::from(trace[at + 2]);
    let b3 = usize::from(trace[at + 3]);
    let b4 = usize::from(trace[at + 4]);
    let b5 = usize::from(trace[at + 5]);
    let b6 = usize::from(trace[at + 6]);
    Numbers {
        operation: b0 / 32,
        file: b0 % 32,
        position: 65536 * b1 + 256 * b2 + b3,
        length: 2 * b4 + b5 / 128,
        fill: (b5 % 128 * 2 + b6 / 128) as u8,
        zero: b6 % 128,
    }
}

// Which operations use which field.
#[tactic(auto, unfolding(crate::specs::Steps::uses))]
fn uses_position(operation: usize) -> bool
    ensures { result ≡ uses operation the_position }
{
    matches!(operation, 2 | 3 | 4 | 7)
}

#[tactic(auto, unfolding(crate::specs::Steps::uses))]
fn uses_length(operation: usize) -> bool
    ensures { result ≡ uses operation the_length }
{
    matches!(operation, 1 | 2 | 3 | 7)
}

#[tactic(auto, unfolding(crate::specs::Steps::uses))]
fn uses_fill(operation: usize) -> bool
    ensures { result ≡ uses operation the_fill }
{
    matches!(operation, 2 | 3)
}

// A field that any number may stand in if it is used, and else none but 0.
fn fine(used: bool, value: usize) -> bool
    ensures { result ≡ cond used true (eqb value 0) }
{
    used || value == 0
}

// The file number: below the number of names if it is used.
fn fine_file(used: bool, value: usize, names: usize) -> bool
    ensures { result ≡ cond used (ltb value names) (eqb value 0) }
{
    if used { value < names } else { value == 0 }
}

// Where in its call the first bad field starts, 56 where all are good.
fn bad_field(m: Numbers, names: usize) -> usize
    ensures { result ≡ first_bad names m fields }
{
    let operation = m.operation;
    if !fine_file(operation != 0, m.file, names) {
        return 3;
    }
    if !fine(uses_position(operation), m.position) {
        return 8;
    }
    if !fine(uses_length(operation), m.length) {
        return 32;
    }
    if !fine(uses_fill(operation), usize::from(m.fill)) {
        return 41;
    }
    if m.zero != 0 {
        return 49;
    }
    56
}

// The step that numbers of an operation from 1 to 7 make.
fn step_of(m: Numbers) -> Step
    ensures { result ≡ step_of m }
{
    let Numbers {
        operation,
        file,
        position,
        length,
        fill,
        ..
    } = m;
    let with = WriteWith {
        position,
        length,
        fill,
    };
    let call = match operation {
        1 => Call::Create(CreateWith { length }),
        2 => Call::SequentialWrite(with),
        3 => Call::RandomWrite(with),
        4 => Call::Allot(AllotWith { sector: position }),
        5 => Call::Trim,
        6 => Call::Kill,
        _ => Call::Read(ReadWith { position, length }),
    };
    Step { file, call }
}

// The calls behind the names, from the first on.
fn check_calls(trace: &[u8], names: usize) -> Checked
    requires { 1 + 11 * names ≤ length trace.now }
    ensures { result ≡ calls_told (bits trace.now) names }
{
    let first = 1 + 11 * names;
    let whole = (trace.len() - first) / 7;
    for i in 0..whole {
        let at = first + 7 * i;
        let m = numbers_at(trace, at);
        let bad = bad_field(m, names);
        if bad < 56 {
            return Checked {
                well: false,
                calls: 0,
                byte: at + bad / 8,
                bit: bad % 8,
            };
        }
        if m.operation == 0 {
            return Checked {
                well: true,
                calls: i,
                byte: 0,
                bit: 0,
            };
        }
    }
    Checked {
        well: false,
        calls: 0,
        byte: trace.len(),
        bit: 0,
    }
}

// Whether a trace is well formed, and how many calls it has or where its first fault is. Every trace gets an answer.
pub fn check_trace(trace: &[u8]) -> Checked
    ensures { result ≡ tell (read_trace trace.now) }
{
    if trace.is_empty() {
        return Checked {
            well: false,
            calls: 0,
            byte: 0,
            bit: 0,
        };
    }
    let names = usize::from(trace[0]);
    if names < 1 {
        return Checked {
            well: false,
            calls: 0,
            byte: 0,
            bit: 0,
        };
    }
    if 32 < names {
        return Checked {
            well: false,
            calls: 0,
            byte: 0,
            bit: 0,
        };
    }
    if trace.len() < 1 + 11 * names {
        return Checked {
            well: false,
            calls: 0,
            byte: trace.len(),
            bit: 0,
        };
    }
    check_calls(trace, names)
}

// Step i of a well-formed trace. That it has one follows from `i < check_trace(trace).calls`.
pub fn step_at(trace: &[u8], i: usize) -> Step
    requires { i < length (steps_of (read_trace trace.now)) }
    ensures { result ≡ get_or (steps_of (read_trace trace.now)) i no_step }
{
    let names = usize::from(trace[0]);
    step_of(numbers_at(trace, 1 + 11 * names + 7 * i))
}

// The eleven bytes from `at` on.
fn eleven_at(trace: &[u8], at: usize) -> [u8; 11]
    requires { at + 11 ≤ length trace.now }
    ensures { result ≡ fields_from (bits trace.now) (8 * at) 8 11 }
{
    let mut name = [0; 11];
    name.copy_from_slice(&trace[at..at + 11]);
    name
}

// Name k of a well-formed trace: that of the file of this number.
pub fn name_at(trace: &[u8], k: usize) -> [u8; 11]
    requires { k < length (names_of (read_trace trace.now)) }
    ensures { result ≡ get_or (names_of (read_trace trace.now)) k [] }
{
    eleven_at(trace, 1 + 11 * k)
}
