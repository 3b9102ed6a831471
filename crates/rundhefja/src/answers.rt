// Answers of the calls, as C takes them: a refusal's number or 0, and what is given, which is 0 after a refusal.
ghost use Rattle.std.specs.Prelude.{◌≡◌};
ghost use Rattle.refusals.specs.Numbers.{answer_of};
ghost use Rattle.clustering.specs.Answers.{grouped};
ghost use Rattle.packing.specs.Answers.{packed_boxes};
ghost use Rattle.layout.specs.Answers.{result_of};
ghost use Rattle.card_stock.specs.Answers.{charge_of};
ghost use Rattle.rundhefja.specs.Answers.{
  length_of,
  test_of,
  count_of,
  shared_of,
  grouping_of,
  packing_of,
  outcome_of,
  amount_of,
  written_of,
};

use intake::limits::MAX_CIRCLES;
use layout::normalize::Arrangement;
use refusals::Refusal;
use shapes::bounds::Bounds;
use shapes::circle::Circle;
use shapes::point::Point;
use shapes::rectangle::Rectangle;

#[repr(C)]
#[derive(Clone, Copy)]
pub struct Length {
    pub refusal: u8,
    pub value: f64,
}

impl From<Result<f64, Refusal>> for Length {
    ghost from_gives = { λ answer r. r ≡ length_of (answer_of answer) };

    fn from(answer: Result<f64, Refusal>) -> Self {
        match answer {
            Ok(value) => Length { refusal: 0, value },
            Err(refusal) => Length {
                refusal: refusal.number(),
                value: 0.0,
            },
        }
    }
}

#[repr(C)]
#[derive(Clone, Copy)]
pub struct Test {
    pub refusal: u8,
    pub value: bool,
}

impl From<Result<bool, Refusal>> for Test {
    ghost from_gives = { λ answer r. r ≡ test_of (answer_of answer) };

    fn from(answer: Result<bool, Refusal>) -> Self {
        match answer {
            Ok(value) => Test { refusal: 0, value },
            Err(refusal) => Test {
                refusal: refusal.number(),
                value: false,
            },
        }
    }
}

#[repr(C)]
#[derive(Clone, Copy)]
pub struct Count {
    pub refusal: u8,
    pub value: usize,
}

impl From<Result<usize, Refusal>> for Count {
    ghost from_gives = { λ answer r. r ≡ count_of (answer_of answer) };

    fn from(answer: Result<usize, Refusal>) -> Self {
        match answer {
            Ok(value) => Count { refusal: 0, value },
            Err(refusal) => Count {
                refusal: refusal.number(),
                value: 0,
            },
        }
    }
}

// What two boxes share. Nothing is refused here: where they share nothing, the box is 0.
#[repr(C)]
#[derive(Clone, Copy)]
pub struct Shared {
    pub empty: bool,
    pub bounds: Bounds,
}

impl From<Option<Bounds>> for Shared {
    ghost from_gives = { λ overlap r. r ≡ shared_of overlap };

    fn from(overlap: Option<Bounds>) -> Self {
        match overlap {
            Some(bounds) => Shared {
                empty: false,
                bounds,
            },
            None => Shared {
                empty: true,
                bounds: Bounds::new(0.0, 0.0, 0.0, 0.0),
            },
        }
    }
}

// A clustering: how many clusters, and each circle's.
#[repr(C)]
#[derive(Clone, Copy)]
pub struct Clusters {
    pub refusal: u8,
    pub count: usize,
    pub numbers: [u8; MAX_CIRCLES],
}

impl From<Result<clustering::Clusters, Refusal>> for Clusters {
    ghost from_gives = { λ answer r. grouping_of r ≡ grouped answer };

    fn from(answer: Result<clustering::Clusters, Refusal>) -> Self {
        match answer {
            Ok(clusters) => {
                let numbers = clusters.numbers;
                Clusters {
                    refusal: 0,
                    count: clusters.count,
                    numbers,
                }
            }
            Err(refusal) => Clusters {
                refusal: refusal.number(),
                count: 0,
                numbers: [0; MAX_CIRCLES],
            },
        }
    }
}

// Boxes, packed.
#[repr(C)]
#[derive(Clone, Copy)]
pub struct Packed {
    pub refusal: u8,
    pub rectangles: [Rectangle; MAX_CIRCLES],
}

impl From<Result<[Rectangle; MAX_CIRCLES], Refusal>> for Packed {
    ghost from_gives = { λ answer r. packing_of r ≡ packed_boxes answer };

    fn from(answer: Result<[Rectangle; MAX_CIRCLES], Refusal>) -> Self {
        match answer {
            Ok(rectangles) => Packed {
                refusal: 0,
                rectangles,
            },
            Err(refusal) => Packed {
                refusal: refusal.number(),
                rectangles: [Rectangle {
                    center: Point { x: 0.0, y: 0.0 },
                    width: 0.0,
                    height: 0.0,
                }; MAX_CIRCLES],
            },
        }
    }
}

// Where a container now stands: as it was given after a refusal.
#[repr(C)]
#[derive(Clone, Copy)]
pub struct Placed {
    pub refusal: u8,
    pub container: Rectangle,
}

// A layout, beside the circles: the clusters, the mask of the moved circles, and the padding.
#[repr(C)]
#[derive(Clone, Copy)]
pub struct Laid {
    pub refusal: u8,
    pub count: usize,
    pub numbers: [u8; MAX_CIRCLES],
    pub moved: u64,
    pub padding: f64,
}

impl From<Result<Arrangement, Refusal>> for Laid {
    ghost from_gives = { λ answer r. outcome_of r ≡ result_of answer };

    fn from(answer: Result<Arrangement, Refusal>) -> Self {
        match answer {
            Ok(laid) => {
                let numbers = laid.numbers;
                Laid {
                    refusal: 0,
                    count: laid.count,
                    numbers,
                    moved: laid.moved,
                    padding: laid.padding,
                }
            }
            Err(refusal) => Laid {
                refusal: refusal.number(),
                count: 0,
                numbers: [0; MAX_CIRCLES],
                moved: 0,
                padding: 0.0,
            },
        }
    }
}

// What the card stock of a layout costs, in cents.
#[repr(C)]
#[derive(Clone, Copy)]
pub struct Charge {
    pub refusal: u8,
    pub amount: u64,
}

impl From<Result<u64, Refusal>> for Charge {
    ghost from_gives = { λ answer r. amount_of r ≡ charge_of answer };

    fn from(answer: Result<u64, Refusal>) -> Self {
        match answer {
            Ok(amount) => Charge { refusal: 0, amount },
            Err(refusal) => Charge {
                refusal: refusal.number(),
                amount: 0,
            },
        }
    }
}

// How many bytes were written from the start of a lent list: 0 where the call is refused.
#[repr(C)]
#[derive(Clone, Copy)]
pub struct Written {
    pub refusal: u8,
    pub length: usize,
}

impl From<Result<usize, Refusal>> for Written {
    ghost from_gives = { λ answer r. r ≡ written_of answer };

    fn from(answer: Result<usize, Refusal>) -> Self {
        match answer {
            Ok(length) => Written { refusal: 0, length },
            Err(refusal) => Written {
                refusal: refusal.number(),
                length: 0,
            },
        }
    }
}

// A field of a card file: the factor of tag 1, the circle of tag 2, the mask and the area of tag 3. The body is a part of the file.
#[repr(C)]
#[derive(Clone, Copy)]
pub struct FieldRead {
    pub refusal: u8,
    pub tag: u8,
    pub factor: f64,
    pub circle: Circle,
    pub mask: u64,
    pub area: f64,
    pub body_start: usize,
    pub body_length: usize,
}
