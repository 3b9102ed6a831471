// The body of a record, read from its front on. What is to stand next and does not is no answer, as where the body is cut.
use intake::blanks::blank;
use refusals::Refusal;
use shapes::bounds::Bounds;
use shapes::circle::Circle;
use shapes::point::Point;
use shapes::rectangle::Rectangle;

#[derive(Drop)]
pub struct Body<'a> {
    rest: &'a [u8],
}

impl<'a> Body<'a> {
    pub fn new(bytes: &'a [u8]) -> Body<'a> {
        Body { rest: bytes }
    }

    fn array<const N: usize>(&mut self) -> Option<[u8; N]> {
        let (first, rest) = self.rest.split_first_chunk::<N>()?;
        self.rest = rest;
        Some(*first)
    }

    // ---- what stands next

    // So many bytes.
    pub fn part(&mut self, n: usize) -> Option<&'a [u8]> {
        let (first, rest) = self.rest.split_at_checked(n)?;
        self.rest = rest;
        Some(first)
    }

    pub fn byte(&mut self) -> Option<u8> {
        let [byte] = self.array::<1>()?;
        Some(byte)
    }

    // Two bytes, the lower first.
    pub fn short(&mut self) -> Option<u16> {
        Some(u16::from_le_bytes(self.array()?))
    }

    // Eight bytes, the lowest first.
    pub fn word(&mut self) -> Option<u64> {
        Some(u64::from_le_bytes(self.array()?))
    }

    pub fn float(&mut self) -> Option<f64> {
        Some(bits::float_of(self.word()?))
    }

    pub fn point(&mut self) -> Option<Point> {
        let x = self.float()?;
        let y = self.float()?;
        Some(Point::new(x, y))
    }

    pub fn circle(&mut self) -> Option<Circle> {
        let center = self.point()?;
        let radius = self.float()?;
        let ink = self.short()?;
        Some(Circle {
            center,
            radius,
            ink,
        })
    }

    pub fn bounds(&mut self) -> Option<Bounds> {
        let x_min = self.float()?;
        let x_max = self.float()?;
        let y_min = self.float()?;
        let y_max = self.float()?;
        Some(Bounds::new(x_min, x_max, y_min, y_max))
    }

    pub fn rectangle(&mut self) -> Option<Rectangle> {
        let center = self.point()?;
        let width = self.float()?;
        let height = self.float()?;
        Some(Rectangle {
            center,
            width,
            height,
        })
    }

    // ---- lists

    // So many circles, of which those that an array of 64 holds are kept. Behind them stand points of ink 0, which nothing may look at: they would be refused
    // for their radii and inks.
    pub fn circles(&mut self, n: usize) -> Option<[Circle; 64]> {
        let mut all = [blank(); 64];
        for i in 0..n {
            let circle = self.circle()?;
            if let Some(place) = all.get_mut(i) {
                *place = circle;
            }
        }
        Some(all)
    }

    // So many rectangles, likewise. Behind them stand some without sides.
    pub fn rectangles(&mut self, n: usize) -> Option<[Rectangle; 64]> {
        let mut all = [Rectangle::new(Point::new(0.0, 0.0), 0.0, 0.0); 64];
        for i in 0..n {
            let rectangle = self.rectangle()?;
            if let Some(place) = all.get_mut(i) {
                *place = rectangle;
            }
        }
        Some(all)
    }

    // So many points, of which those that an array of 1,024 holds are kept. Behind them stand some out of range, which nothing may look at.
    pub fn points(&mut self, n: usize) -> Option<[Point; 1024]> {
        let mut all = [Point::new(2097152.0, 0.0); 1024];
        for i in 0..n {
            let point = self.point()?;
            if let Some(place) = all.get_mut(i) {
                *place = point;
            }
        }
        Some(all)
    }

    // So many words, put into the front of a list, if it has room for them.
    pub fn words<'b>(&mut self, n: usize, room: &'b mut [u64]) -> Option<&'b [u64]> {
        let words = room.get_mut(..n)?;
        for place in words.iter_mut() {
            *place = self.word()?;
        }
        Some(words)
    }

    // So many floats, likewise.
    pub fn floats<'b>(&mut self, n: usize, room: &'b mut [f64]) -> Option<&'b [f64]> {
        let floats = room.get_mut(..n)?;
        for place in floats.iter_mut() {
            *place = self.float()?;
        }
        Some(floats)
    }

    // ---- what is to stand next

    pub fn is_byte(&mut self, byte: u8) -> Option<()> {
        (self.byte()? == byte).then_some(())
    }

    // The number of a refusal, 0 for an answer.
    pub fn is_refusal<T>(&mut self, answer: &Result<T, Refusal>) -> Option<()> {
        self.is_byte(match answer {
            Ok(_) => 0,
            Err(refusal) => refusal.number(),
        })
    }

    // A number as a byte.
    pub fn is_count(&mut self, n: usize) -> Option<()> {
        (usize::from(self.byte()?) == n).then_some(())
    }

    pub fn is_short(&mut self, short: u16) -> Option<()> {
        (self.short()? == short).then_some(())
    }

    pub fn is_word(&mut self, word: u64) -> Option<()> {
        (self.word()? == word).then_some(())
    }

    // A result's pattern, a zero's sign aside.
    pub fn is_result(&mut self, x: f64) -> Option<()> {
        self.is_word(bits::bits_of(x))
    }

    pub fn is_circle(&mut self, c: Circle) -> Option<()> {
        self.is_result(c.center.x)?;
        self.is_result(c.center.y)?;
        self.is_result(c.radius)?;
        self.is_short(c.ink)
    }

    pub fn is_bounds(&mut self, b: Bounds) -> Option<()> {
        self.is_result(b.x_min)?;
        self.is_result(b.x_max)?;
        self.is_result(b.y_min)?;
        self.is_result(b.y_max)
    }

    pub fn is_rectangle(&mut self, r: Rectangle) -> Option<()> {
        self.is_result(r.center.x)?;
        self.is_result(r.center.y)?;
        self.is_result(r.width)?;
        self.is_result(r.height)
    }

    // The rest of the body.
    pub fn is_rest(self, bytes: &[u8]) -> Option<()> {
        (self.rest == bytes).then_some(())
    }

    pub fn ends(self) -> Option<()> {
        self.rest.is_empty().then_some(())
    }
}
