use board::call::{Call, Line, Outcome};

// A line with a call that has not been done yet.
fn line(call: Call) -> Line {
    Line {
        call,
        outcome: Outcome::Accepted { mends: 0 },
    }
}

// A vessel enters at a position in centimetres, with a speed in centimetres a second.
fn enter(number: u16, position: i32, speed: i16) -> Line {
    line(Call::Enter {
        number,
        position,
        speed,
    })
}

fn leave(number: u16) -> Line {
    line(Call::Leave { number })
}

fn steer(number: u16, speed: i16) -> Line {
    line(Call::Steer { number, speed })
}

fn advance(seconds: u64, numerator: u16, denominator: u16) -> Line {
    line(Call::Advance {
        seconds,
        numerator,
        denominator,
    })
}

// The calls of the watch, in turn.
pub fn watch_lines() -> [Line; 27] {
    [
        line(Call::Open),
        enter(7, 0, 3),
        enter(3, 10, 1),
        enter(9, 40, 1001),
        enter(0, 5, 1),
        advance(4, 1, 2),
        steer(7, 2),
        advance(4, 0, 1),
        advance(5, 0, 1),
        enter(7, 20, 2),
        enter(12, 40, -1),
        steer(3, 6),
        advance(9, 0, 1),
        enter(5, 0, 8),
        advance(11, 1, 4),
        advance(14, 2, 4),
        advance(15, 2, 2),
        advance(15, 0, 1),
        leave(12),
        leave(12),
        enter(14, -30, 1),
        steer(5, 4),
        steer(3, -2),
        enter(20, 0, 30),
        advance(20, 1, 3),
        leave(20),
        advance(20, 1, 3),
    ]
}
