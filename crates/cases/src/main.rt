// Runs the cases of the scope that are not in the proved table, and prints each one's name and what it gives.
#![tactic(auto)]

use desk::OUTPUT_ROOM;
use sets::Set;
use std::io;

// A run on the memory of a text; bit p of an authority is principal p.
#[derive(Clone, Copy)]
struct Case<'a> {
    name: &'a [u8],
    sheet: &'a [u8],
    script: &'a [u8],
    memory: &'a [u8],
    authority: Set,
    budget: u32,
}

impl Case<'_> {
    // The run, on the memory of the case's text; on none where the text is no memory's.
    fn run(&self, rt: &impl Print) -> io::Result<()> {
        print_name(rt, self.name)?;
        let Some(read) = memory_text::read_memory(self.memory) else {
            return self.run_on(rt, &mut []);
        };
        let mut words = read.words;
        let words = &mut words[..read.count * memory::CELL];
        self.run_on(rt, words)
    }

    // The run on a memory: its answer and steps, and the memory as it then is.
    fn run_on(&self, rt: &impl Print, words: &mut [u32]) -> io::Result<()> {
        let outcome = simp::simp_run(self.sheet, self.script, words, self.authority, self.budget);
        println!(rt; "{}\t{}", outcome.answer, outcome.steps)?;
        print_memory(rt, words)
    }
}

fn print_name(rt: &impl Print, name: &[u8]) -> io::Result<()> {
    rt.write_all(name)?;
    rt.write_all(b":\n")
}

fn print_memory(rt: &impl Print, words: &[u32]) -> io::Result<()> {
    let mut out = [0u8; OUTPUT_ROOM];
    let n = memory_text::write::write_memory(words, &mut out);
    rt.write_all(desk::first(&out, n))
}

// The view of the memory of a text. It is kept out of line, so that what it reads and prints takes no place below a
// run.
#[inline(never)]
fn show_case(
    rt: &impl Print,
    name: &[u8],
    sheet: &[u8],
    memory: &[u8],
    group: &[u8],
) -> io::Result<()> {
    print_name(rt, name)?;
    let mut out = [0u8; OUTPUT_ROOM];
    let n = desk::show(sheet, memory, group, &mut out);
    rt.write_all(desk::first(&out, n))
}

// The cases of steps, on the sheet of the scope.
fn step_cases(rt: &impl Print, sheet: &[u8]) -> io::Result<()> {
    let idle = Case {
        name: b"s, budget 0",
        sheet,
        script: b"s\n",
        memory: b"1\t5\n1\t62\n4\t2\t1\n4\t2\t1\n",
        authority: 0,
        budget: 0,
    };
    idle.run(rt)?;
    let two = Case {
        name: b"; s s, budget 0",
        script: b";\ns\ns\n",
        ..idle
    };
    two.run(rt)?;
    let two = Case {
        name: b"; s s, budget 1",
        budget: 1,
        ..two
    };
    two.run(rt)?;
    let sum = Case {
        name: b"4294967295 + 1",
        script: b"=\t0\n+\ni\t4294967295\ni\t1\n",
        ..two
    };
    sum.run(rt)
}

// The cases of packages, on the same sheet.
fn package_cases(rt: &impl Print, sheet: &[u8]) -> io::Result<()> {
    let unpacked = Case {
        name: b"unpack by 1",
        sheet,
        script: b"c\nx\t2\n=\t3\nu\t5\t2\nv\t0\ns\n",
        memory: b"1\t5\n1\t62\n3\t5\t2\t1\t62\n3\t1\t62\n",
        authority: 2,
        budget: 2,
    };
    unpacked.run(rt)?;
    show_case(
        rt,
        b"show to 1",
        sheet,
        b"1\t5\n1\t62\n3\t5\t2\t1\t62\n4\t2\t1\n",
        b"0002\n",
    )
}

// Sums nested fifteen deep: types 5 to 19, each with the one before it on its left.
fn deep_cases(rt: &impl Print, sheet: &[u8]) -> io::Result<()> {
    let fourteen = Case {
        name: b"fourteen lefts",
        sheet,
        script: b"=\t0\nl\t18\nl\t17\nl\t16\nl\t15\nl\t14\nl\t13\nl\t12\nl\t11\nl\t10\nl\t9\nl\t8\nl\t7\nl\t6\n\
                  l\t5\ni\t7\n",
        memory: b"4\t2\t1\n4\t2\t1\n",
        authority: 0,
        budget: 1,
    };
    fourteen.run(rt)?;
    let fifteen = Case {
        name: b"fifteen lefts",
        script: b"=\t1\nl\t19\nl\t18\nl\t17\nl\t16\nl\t15\nl\t14\nl\t13\nl\t12\nl\t11\nl\t10\nl\t9\nl\t8\nl\t7\n\
                  l\t6\nl\t5\ni\t7\n",
        ..fourteen
    };
    fifteen.run(rt)
}

fn main(rt: HostRuntime) -> io::Result<()> {
    let sheet =
        b"P\t3\nT\t0\t1\nL\nL\nO\t0\t0000\t0000\nL\nO\t0\t0000\t0007\nX\t0\t0\nX\t0\t2\nX\t4\t0\nX\t5\t2\n";
    step_cases(&rt, sheet)?;
    package_cases(&rt, sheet)?;
    deep_cases(
        &rt,
        b"P\t1\nT\t0\t1\nT\t5\t1\nT\t6\t1\nT\t7\t1\nT\t8\t1\nT\t9\t1\nT\t10\t1\nT\t11\t1\nT\t12\t1\nT\t13\t1\n\
          T\t14\t1\nT\t15\t1\nT\t16\t1\nT\t17\t1\nT\t18\t1\nL\nX\t18\t0\nX\t19\t0\n",
    )
}
