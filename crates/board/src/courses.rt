ghost use Rattle.std.specs.Prelude.{◌≡◌, ℕ, ◌<◌, ◌≤◌, false};
ghost use Rattle.fairway.specs.Courses.{InRange};
ghost use Rattle.board.specs.Books.{course_at, at_speed};
ghost use Rattle.board.specs.Boards.{speed_out, position_out, entry_out};

use fairway::course::Course;

// The greatest speed in size, in centimetres a second.
const MOST_SPEED: i16 = 1000;

// The greatest position at which a vessel enters in size, in centimetres.
const MOST_POSITION: i32 = 100_000_000;

// Whether a speed is above 1,000 in size.
#[tactic(auto, unfolding(crate::specs::Boards::speed_out))]
pub fn is_speed_out(speed: i16) -> bool
    ensures { result ≡ speed_out speed }
{
    !(-MOST_SPEED..=MOST_SPEED).contains(&speed)
}

// Whether a position is above 100,000,000 in size.
#[tactic(auto, unfolding(crate::specs::Boards::position_out))]
pub fn is_position_out(position: i32) -> bool
    ensures { result ≡ position_out position }
{
    !(-MOST_POSITION..=MOST_POSITION).contains(&position)
}

// The course of a vessel that is at a position at a whole second.
pub fn course_at(number: u16, position: i32, speed: i16, second: u64) -> Course
    requires { second ≤ 16777216 }
    ensures value { result ≡ course_at number position speed second }
    ensures range { 0 < number → entry_out position speed ≡ false → InRange result }
{
    Course {
        number,
        speed,
        base: position as i64 - speed as i64 * second as i64,
    }
}

// The course of another speed that has the same position at that second.
pub fn at_speed(course: Course, speed: i16, second: u64) -> Course
    requires { (InRange course) × (second ≤ 16777216) }
    ensures { result ≡ at_speed speed second course }
{
    let change = course.speed as i64 - speed as i64;
    Course {
        number: course.number,
        speed,
        base: course.base + change * second as i64,
    }
}
