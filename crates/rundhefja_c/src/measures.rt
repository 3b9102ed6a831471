// The exports of `rundhefja::measures`, each with its clauses.
ghost use Rattle.std.specs.Prelude.{◌≡◌};
ghost use Rattle.scope.specs.Distance.{root_answer, distance_answer, circle_distance_answer, contains_answer, contains_point_answer, intersects_answer};
ghost use Rattle.scope.specs.Packing.{columns_answer};
ghost use Rattle.rundhefja.specs.Answers.{length_of, test_of, count_of};

use rundhefja::answers::{Count, Length, Test};
use shapes::circle::Circle;
use shapes::point::Point;

#[unsafe(no_mangle)]
pub extern "C" fn rundhefja_root(x: f64) -> Length
    ensures { result ≡ length_of (root_answer x) }
{
    rundhefja::measures::rundhefja_root(x)
}

#[unsafe(no_mangle)]
pub extern "C" fn rundhefja_point_distance(p: Point, q: Point) -> Length
    ensures { result ≡ length_of (distance_answer p q) }
{
    rundhefja::measures::rundhefja_point_distance(p, q)
}

#[unsafe(no_mangle)]
pub extern "C" fn rundhefja_distance(a: Circle, b: Circle) -> Length
    ensures { result ≡ length_of (circle_distance_answer a b) }
{
    rundhefja::measures::rundhefja_distance(a, b)
}

#[unsafe(no_mangle)]
pub extern "C" fn rundhefja_contains(a: Circle, b: Circle) -> Test
    ensures { result ≡ test_of (contains_answer a b) }
{
    rundhefja::measures::rundhefja_contains(a, b)
}

#[unsafe(no_mangle)]
pub extern "C" fn rundhefja_contains_point(c: Circle, p: Point) -> Test
    ensures { result ≡ test_of (contains_point_answer c p) }
{
    rundhefja::measures::rundhefja_contains_point(c, p)
}

#[unsafe(no_mangle)]
pub extern "C" fn rundhefja_intersects(a: Circle, b: Circle) -> Test
    ensures { result ≡ test_of (intersects_answer a b) }
{
    rundhefja::measures::rundhefja_intersects(a, b)
}

#[unsafe(no_mangle)]
pub extern "C" fn rundhefja_columns(k: usize, proportion: f64) -> Count
    ensures { result ≡ count_of (columns_answer k proportion) }
{
    rundhefja::measures::rundhefja_columns(k, proportion)
}
