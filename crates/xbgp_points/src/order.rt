// The numbers of the programs of each point.
ghost use Rattle.std.specs.Prelude.{◌≡◌, IfOk};
ghost use Rattle.xbgp_points.specs.Chains.{point_number as number_of, same_point as is_same};
ghost use Rattle.xbgp_points.specs.Orders.{numbers_from, AreOrders};

use std::alloc::{AllocError, Global};
use xb_domain::Point;
use xbgp_manifest::ProgramEntries;

/// The numbers of the programs of each point, in the manifest's order.
#[derive(Drop)]
pub(crate) struct Orders {
    pub receive: Vec<usize>,
    pub inbound: Vec<usize>,
    pub decision: Vec<usize>,
    pub outbound: Vec<usize>,
    pub encode: Vec<usize>,
}

// The number of a point.
fn point_number(point: Point) -> u8
    ensures { result ≡ number_of point }
{
    match point {
        Point::Receive => 0,
        Point::Inbound => 1,
        Point::Decision => 2,
        Point::Outbound => 3,
        Point::Encode => 4,
    }
}

// Whether two points are one.
fn same_point(a: Point, b: Point) -> bool
    ensures { result ≡ is_same a b }
{
    point_number(a) == point_number(b)
}

// The numbers of the programs of a point.
fn numbers_at(
    alloc: Global,
    programs: &ProgramEntries,
    point: Point,
) -> Result<Vec<usize>, AllocError>
    ensures { IfOk result (λ v. v.items ≡ numbers_from point 0 programs.now) }
{
    let mut numbers = Vec::new(alloc);
    'programs: for i in 0..programs.len() {
        if same_point(programs.get(i).point, point) {
            numbers.push(i)?;
        }
    }
    Ok(numbers)
}

/// The numbers of the programs of each point. Err if there is no memory.
pub(crate) fn orders_of(alloc: Global, programs: &ProgramEntries) -> Result<Orders, AllocError>
    ensures { IfOk result (AreOrders programs.now) }
{
    Ok(Orders {
        receive: numbers_at(alloc, programs, Point::Receive)?,
        inbound: numbers_at(alloc, programs, Point::Inbound)?,
        decision: numbers_at(alloc, programs, Point::Decision)?,
        outbound: numbers_at(alloc, programs, Point::Outbound)?,
        encode: numbers_at(alloc, programs, Point::Encode)?,
    })
}
