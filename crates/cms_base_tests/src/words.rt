// Lists of words with what they say.
use cms_cases::Report;
use cms_words::{UnitWord, Words, read_words};
use cms_world::Argv;
use std::alloc::Global;
use std::process::Abort;

/// Words with strokes between them, and what they say: the turns, the offset, the seed and the units, or the fault behind its number.
pub const ROWS: &str = "\
cms/191,512,rw,T => (1000000, 0, None) 191,512,ReadWrite,T
another name/191,512,rw,x => (1000000, 0, None) 191,512,ReadWrite,x
cms/191,512,ro,disk.img => (1000000, 0, None) 191,512,ReadOnly,disk.img
cms/191,1024,n3000,w.img => (1000000, 0, None) 191,1024,New(3000),w.img
cms/fFf,4096,ro,a,b,,c => (1000000, 0, None) FFF,4096,ReadOnly,a,b,,c
cms/001,2048,rw,a b => (1000000, 0, None) 001,2048,ReadWrite,a b
cms/191,512,n8,- => (1000000, 0, None) 191,512,New(8),-
cms/191,512,n1048576,x => (1000000, 0, None) 191,512,New(1048576),x
cms/19a,512,rw,x/191,512,ro,x => (1000000, 0, None) 19A,512,ReadWrite,x 191,512,ReadOnly,x
cms/001,512,ro,u/002,512,ro,u/003,512,ro,u/004,512,ro,u/005,512,ro,u/006,512,ro,u/007,512,ro,u/008,512,ro,u/009,512,ro,u/00A,\
512,ro,u/00B,512,ro,u/00C,512,ro,u/00D,512,ro,u/00E,512,ro,u/00F,512,ro,u/010,512,ro,u => (1000000, 0, None) 001,512,ReadOnly,\
u 002,512,ReadOnly,u 003,512,ReadOnly,u 004,512,ReadOnly,u 005,512,ReadOnly,u 006,512,ReadOnly,u 007,512,ReadOnly,u 008,512,\
ReadOnly,u 009,512,ReadOnly,u 00A,512,ReadOnly,u 00B,512,ReadOnly,u 00C,512,ReadOnly,u 00D,512,ReadOnly,u 00E,512,ReadOnly,\
u 00F,512,ReadOnly,u 010,512,ReadOnly,u
cms/-t/5/191,512,rw,x => (5, 0, None) 191,512,ReadWrite,x
cms/-t5/191,512,rw,x => (5, 0, None) 191,512,ReadWrite,x
cms/-t=5/191,512,rw,x => (5, 0, None) 191,512,ReadWrite,x
cms/191,512,rw,x/-t/5 => (5, 0, None) 191,512,ReadWrite,x
cms/191,512,rw,x/-t/7/192,512,ro,y => (7, 0, None) 191,512,ReadWrite,x 192,512,ReadOnly,y
cms/--/191,512,rw,x => (1000000, 0, None) 191,512,ReadWrite,x
cms/-t/7/--/191,512,rw,x => (7, 0, None) 191,512,ReadWrite,x
cms/-t/1/191,512,rw,x => (1, 0, None) 191,512,ReadWrite,x
cms/-t/1000000000/191,512,rw,x => (1000000000, 0, None) 191,512,ReadWrite,x
cms/-t/0000000005/191,512,rw,x => (5, 0, None) 191,512,ReadWrite,x
cms/-z/E0000/191,512,rw,x => (1000000, 0, None) 191,512,ReadWrite,x
cms/-z/W0000/191,512,rw,x => (1000000, 0, None) 191,512,ReadWrite,x
cms/-z/E1459/191,512,rw,x => (1000000, 53940, None) 191,512,ReadWrite,x
cms/-z/W1459/191,512,rw,x => (1000000, -53940, None) 191,512,ReadWrite,x
cms/-zW0001/191,512,rw,x => (1000000, -60, None) 191,512,ReadWrite,x
cms/-z/E0130/191,512,rw,x => (1000000, 5400, None) 191,512,ReadWrite,x
cms/-g/0/191,512,rw,x => (1000000, 0, Some(0)) 191,512,ReadWrite,x
cms/-g/2147483647/191,512,rw,x => (1000000, 0, Some(2147483647)) 191,512,ReadWrite,x
cms/-g0000000001/191,512,rw,x => (1000000, 0, Some(1)) 191,512,ReadWrite,x
cms/-g/1/191,1024,n3000,w.img => (1000000, 0, Some(1)) 191,1024,New(3000),w.img
cms/-t/9/-z/W0500/-g/1/191,512,rw,x => (9, -18000, Some(1)) 191,512,ReadWrite,x
cms/-g/1/191,512,rw,x/-z/W0500/-t/9 => (9, -18000, Some(1)) 191,512,ReadWrite,x
cms => (1, Syntax)
cms/-t/5 => (1, Syntax)
cms/-- => (1, Syntax)
cms/-x/191,512,rw,x => (1, Syntax)
cms/-T/5/191,512,rw,x => (1, Syntax)
cms/--turns/5/191,512,rw,x => (1, Syntax)
cms/-t/5/-t/5/191,512,rw,x => (1, Syntax)
cms/-t5/-t/6/191,512,rw,x => (1, Syntax)
cms/-z/E0000/-z/E0000/191,512,rw,x => (1, Syntax)
cms/-g/1/-g/1/191,512,rw,x => (1, Syntax)
cms/191,512,rw,x/-t => (1, Syntax)
cms/191,512,rw,x/-z => (1, Syntax)
cms/191,512,rw,x/-g => (1, Syntax)
cms/-t/-5/191,512,rw,x => (1, Syntax)
cms/-t/-z/191,512,rw,x => (1, Syntax)
cms/-g/-1/191,512,rw,x => (1, Syntax)
cms/-t/--/191,512,rw,x => (1, Syntax)
cms/--help => (1, Syntax)
cms/-h/191,512,rw,x => (1, Syntax)
cms/191,512,rw,x/--help => (1, Syntax)
cms/--version/191,512,rw,x => (1, Syntax)
cms/-191,512,rw,x => (1, Syntax)
cms/191,513,rw,x/-x => (1, Syntax)
cms/ => (2, Unit(1))
cms/- => (2, Unit(1))
cms/xyz => (2, Unit(1))
cms/000,512,rw,x => (2, Unit(1))
cms/19,512,rw,x => (2, Unit(1))
cms/1911,512,rw,x => (2, Unit(1))
cms/19g,512,rw,x => (2, Unit(1))
cms/19é,512,rw,x => (2, Unit(1))
cms/ 191,512,rw,x => (2, Unit(1))
cms/191,513,rw,x => (2, Unit(1))
cms/191,0512,rw,x => (2, Unit(1))
cms/191,,rw,x => (2, Unit(1))
cms/191,512 ,rw,x => (2, Unit(1))
cms/191,512,r,x => (2, Unit(1))
cms/191,512,RW,x => (2, Unit(1))
cms/191,512,Ro,x => (2, Unit(1))
cms/191,512,N8,x => (2, Unit(1))
cms/191,512,n,x => (2, Unit(1))
cms/191,512,n7,x => (2, Unit(1))
cms/191,512,n08,x => (2, Unit(1))
cms/191,512,n+8,x => (2, Unit(1))
cms/191,512,n8k,x => (2, Unit(1))
cms/191,512,n1048577,x => (2, Unit(1))
cms/191,512,n18446744073709551624,x => (2, Unit(1))
cms/191,512,rw, => (2, Unit(1))
cms/191,512,rw => (2, Unit(1))
cms/191,512 => (2, Unit(1))
cms/191 => (2, Unit(1))
cms/help => (2, Unit(1))
cms/--/-t/5 => (2, Unit(1))
cms/--/--help => (2, Unit(1))
cms/191,512,rw,x/192,513,rw,y => (2, Unit(2))
cms/191,512,rw,x/-t/5/192,512,rw => (2, Unit(2))
cms/001,512,ro,u/002,512,ro,u/003,512,ro,u/004,512,ro,u/005,512,ro,u/006,512,ro,u/007,512,ro,u/008,512,ro,u/009,512,ro,u/00A,\
512,ro,u/00B,512,ro,u/00C,512,ro,u/00D,512,ro,u/00E,512,ro,u/00F,512,ro,u/010,512,ro,u/011,512,ro,u => (2, Unit(17))
cms/001,512,ro,u/002,512,ro,u/003,512,ro,u/004,512,ro,u/005,512,ro,u/006,512,ro,u/007,512,ro,u/008,512,ro,u/009,512,ro,u/00A,\
512,ro,u/00B,512,ro,u/00C,512,ro,u/00D,512,ro,u/00E,512,ro,u/00F,512,ro,u/010,512,ro,u/x => (2, Unit(17))
cms/001,512,ro,u/002,512,ro,u/00x,512,ro,u/004,512,ro,u/005,512,ro,u/006,512,ro,u/007,512,ro,u/008,512,ro,u/009,512,ro,u/00A,\
512,ro,u/00B,512,ro,u/00C,512,ro,u/00D,512,ro,u/00E,512,ro,u/00F,512,ro,u/010,512,ro,u/011,512,ro,u => (2, Unit(3))
cms/-t//191,512,rw,x => (3, Turns)
cms/-t/0/191,512,rw,x => (3, Turns)
cms/-t/00/191,512,rw,x => (3, Turns)
cms/-t/00000000005/191,512,rw,x => (3, Turns)
cms/-t/1000000001/191,512,rw,x => (3, Turns)
cms/-t/9999999999/191,512,rw,x => (3, Turns)
cms/-t/99999999999999999999/191,512,rw,x => (3, Turns)
cms/-t/5x/191,512,rw,x => (3, Turns)
cms/-t/+5/191,512,rw,x => (3, Turns)
cms/-t/ 5/191,512,rw,x => (3, Turns)
cms/-t/5 /191,512,rw,x => (3, Turns)
cms/-t/-/191,512,rw,x => (3, Turns)
cms/-t=/191,512,rw,x => (3, Turns)
cms/-tz/191,512,rw,x => (3, Turns)
cms/-z//191,512,rw,x => (4, Zone)
cms/-z/E/191,512,rw,x => (4, Zone)
cms/-z/E000/191,512,rw,x => (4, Zone)
cms/-z/E00000/191,512,rw,x => (4, Zone)
cms/-z/e0000/191,512,rw,x => (4, Zone)
cms/-z/w0100/191,512,rw,x => (4, Zone)
cms/-z/X0000/191,512,rw,x => (4, Zone)
cms/-z/E1500/191,512,rw,x => (4, Zone)
cms/-z/E9900/191,512,rw,x => (4, Zone)
cms/-z/E1460/191,512,rw,x => (4, Zone)
cms/-z/E0060/191,512,rw,x => (4, Zone)
cms/-z/E0099/191,512,rw,x => (4, Zone)
cms/-z/EE000/191,512,rw,x => (4, Zone)
cms/-z/E00x0/191,512,rw,x => (4, Zone)
cms/-z/0000/191,512,rw,x => (4, Zone)
cms/-z/+0000/191,512,rw,x => (4, Zone)
cms/-z/-/191,512,rw,x => (4, Zone)
cms/191,512,rw,x/191,512,rw,y => (5, Twice(401))
cms/19a,512,rw,x/19A,1024,ro,x => (5, Twice(410))
cms/191,512,rw,a/192,512,rw,b/193,512,rw,c/192,512,rw,d/191,512,rw,e => (5, Twice(402))
cms/-g//191,512,rw,x => (6, Seed)
cms/-g/2147483648/191,512,rw,x => (6, Seed)
cms/-g/4294967297/191,512,rw,x => (6, Seed)
cms/-g/9999999999/191,512,rw,x => (6, Seed)
cms/-g/00000000001/191,512,rw,x => (6, Seed)
cms/-g/x/191,512,rw,x => (6, Seed)
cms/-g/1x/191,512,rw,x => (6, Seed)
cms/-g/+1/191,512,rw,x => (6, Seed)
cms/-g/-/191,512,rw,x => (6, Seed)
cms/-t/0/-x/bad => (1, Syntax)
cms/-t/0/-z/X/-g/x/bad => (2, Unit(1))
cms/-t/0/001,512,ro,u/002,512,ro,u/003,512,ro,u/004,512,ro,u/005,512,ro,u/006,512,ro,u/007,512,ro,u/008,512,ro,u/009,512,ro,\
u/00A,512,ro,u/00B,512,ro,u/00C,512,ro,u/00D,512,ro,u/00E,512,ro,u/00F,512,ro,u/010,512,ro,u/191,512,rw,x => (2, Unit(17))
cms/-t/0/-z/X/-g/x/191,512,rw,x/191,512,rw,x => (3, Turns)
cms/-g/x/-z/X/191,512,rw,x/191,512,rw,x => (4, Zone)
cms/-g/x/191,512,rw,x/191,512,rw,x => (5, Twice(401))
no words => (1, Syntax)";

fn argv<R: Abort>(rt: &R, alloc: Global, case: &str) -> Argv {
    let mut words = Argv::new(alloc);
    for word in case.split('/') {
        words.push(word).expect(rt, "memory");
    }
    words
}

fn push_unit(into: &mut Report, unit: &UnitWord) {
    write!(into, " {:03X},", unit.vdev);
    into.value(&unit.bsize.bytes());
    into.push(',');
    into.value(&unit.access);
    into.push(',');
    into.push_str(unit.name.text())
}

fn push_words(into: &mut Report, words: &Words) {
    into.value(&(words.turns, words.offset, words.seed));
    for place in 0..words.units.len() {
        if let Some(word) = words.units.get(place) {
            push_unit(into, word);
        }
    }
}

fn tell_words(into: &mut Report, alloc: Global, words: &Argv) {
    match read_words(alloc, words) {
        Ok(words) => push_words(into, &words),
        Err(fault) => into.value(&(fault.number(), fault)),
    }
}

/// Tells what a case comes to.
pub fn tell<R: Abort>(into: &mut Report, rt: &R, alloc: Global, case: &str) {
    match case {
        "no words" => tell_words(into, alloc, &Argv::new(alloc)),
        _ => tell_words(into, alloc, &argv(rt, alloc, case)),
    }
}
