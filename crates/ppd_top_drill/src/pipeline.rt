ghost use Rattle.std.specs.Prelude.{◌≡◌, ◌-◌, ◌≤◌, ◌++◌, IfOk, OnOk, decimal};
ghost use Rattle.std.specs.List.{flat_map, range_with_len};
ghost use Rattle.ppd_top_drill.specs.Drills.{channel_line, first_process, generated, head_of_loop, last_process};
ghost use Rattle.ppd_top_drill.specs.Drills.{middle_process, pipeline, turns as turns_of};

use ppd_ast::Memory;
use ppd_text::{put, put_number};
use std::alloc::Global;

/// How many values go through it: 1,000 to 20,000.
fn turns(number: u32) -> u32
    ensures { result ≡ turns_of number }
{
    1000 * (1 + number % 20)
}

fn put_numbered(text: &mut Vec<u8>, name: &[u8], number: u32) -> Result<(), Memory>
    ensures { OnOk result (text.new.items ≡ text.old.items ++ (name.now ++ decimal number)) }
{
    put(text, name)?;
    put_number(text, number)
}

fn put_channel(text: &mut Vec<u8>, channel: u32) -> Result<(), Memory>
    ensures { OnOk result (text.new.items ≡ text.old.items ++ channel_line channel) }
{
    put_numbered(text, b"chan c", channel)?;
    put(text, b"[4];\n")
}

fn put_channels(text: &mut Vec<u8>, count: u32) -> Result<(), Memory>
    ensures { OnOk result (text.new.items ≡ text.old.items ++ flat_map channel_line (range_with_len 0 count)) }
{
    for channel in 0..count {
        put_channel(text, channel)?;
    }
    Ok(())
}

fn put_head_of_loop(text: &mut Vec<u8>, number: u32) -> Result<(), Memory>
    ensures { OnOk result (text.new.items ≡ text.old.items ++ head_of_loop number) }
{
    put_numbered(text, b"while (i < ", turns(number))?;
    put(text, b") { ")
}

fn put_first(text: &mut Vec<u8>, number: u32) -> Result<(), Memory>
    ensures { OnOk result (text.new.items ≡ text.old.items ++ first_process number) }
{
    put(text, b"process p0 { int i = 0; ")?;
    put_head_of_loop(text, number)?;
    put_numbered(text, b"send(c0, i * 3 + ", number)?;
    put(text, b"); i = i + 1; } }\n")
}

fn put_middle(text: &mut Vec<u8>, number: u32, process: u32) -> Result<(), Memory>
    requires { 1 ≤ process }
    ensures { OnOk result (text.new.items ≡ text.old.items ++ middle_process number process) }
{
    put_numbered(text, b"process p", process)?;
    put(text, b" { int i = 0; int v; ")?;
    put_head_of_loop(text, number)?;
    put_numbered(text, b"v = recv(c", process - 1)?;
    put_numbered(text, b"); send(c", process)?;
    put_numbered(text, b", v + ", process)?;
    put(text, b"); i = i + 1; } }\n")
}

fn put_middles(text: &mut Vec<u8>, number: u32, count: u32) -> Result<(), Memory>
    requires { count ≤ 6 }
    ensures { OnOk result
        (text.new.items ≡ text.old.items ++ flat_map (middle_process number) (range_with_len 1 count)) }
{
    for process in 0..count {
        put_middle(text, number, process + 1)?;
    }
    Ok(())
}

fn put_last(text: &mut Vec<u8>, number: u32, process: u32) -> Result<(), Memory>
    requires { 1 ≤ process }
    ensures { OnOk result (text.new.items ≡ text.old.items ++ last_process number process) }
{
    put_numbered(text, b"process p", process)?;
    put(text, b" { int i = 0; int v; int sum = 0; ")?;
    put_head_of_loop(text, number)?;
    put_numbered(text, b"v = recv(c", process - 1)?;
    put(
        text,
        b"); sum = sum + v; i = i + 1; } total = sum; print(sum); }\n",
    )
}

fn put_pipeline(text: &mut Vec<u8>, number: u32, channels: u32) -> Result<(), Memory>
    requires some { 1 ≤ channels }
    requires few { channels ≤ 7 }
    ensures { OnOk result (text.new.items ≡ text.old.items ++ pipeline number channels) }
{
    put(text, b"shared int total;\n")?;
    put_channels(text, channels)?;
    put_first(text, number)?;
    put_middles(text, number, channels - 1)?;
    put_last(text, number, channels)
}

/// The source of a number: a pipeline of 3 to 8 processes, through which 1,000 to 20,000 values go. The first makes
/// them, each in between adds its number to each, and the last adds them up. Each channel has one sender and one
/// receiver, so that every whole schedule has the same synchronization, and the program ends alike at each run.
/// `Memory` is want of memory.
pub fn generate(alloc: Global, number: u32) -> Result<Vec<u8>, Memory>
    ensures { IfOk result (λ text. text.items ≡ generated number) }
{
    let mut text = Vec::new(alloc);
    put_pipeline(&mut text, number, 2 + number % 6)?;
    Ok(text)
}
