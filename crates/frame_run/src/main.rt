// Scales, frames and local points run on small and on long clouds: what is written is compared with the file `stdout`.
#![tactic(auto)]

use frame::{CloudScale, LocalFrame};
use space::Point3f;
use std::io;
use trial::Bits;

fn write_point(rt: &impl Print, p: Point3f) -> io::Result<()> {
    print!(rt; " {} {} {}", Bits(p.x), Bits(p.y), Bits(p.z))
}

// A frame, with the point p in it.
fn write_frame(rt: &impl Print, name: &str, frame: LocalFrame, p: Point3f) -> io::Result<()> {
    let o = frame.origin;
    print!(rt; " {name} {} {} {} local", Bits(o.x), Bits(o.y), Bits(o.z))?;
    write_point(rt, frame.point_to_local(p))
}

fn show_scale(rt: &impl Print, cloud: &[f32]) -> io::Result<()> {
    match CloudScale::of(cloud) {
        Ok(scale) => {
            print!(rt; " scale")?;
            write_point(rt, scale.centroid)?;
            println!(rt; " {}", Bits(scale.radius))
        }
        Err(refusal) => println!(rt; " refused {}", refusal.number()),
    }
}

fn show_centred(rt: &impl Print, cloud: &[f32], p: Point3f) -> io::Result<()> {
    match LocalFrame::centred_on(cloud) {
        Ok(frame) => write_frame(rt, "centred", frame, p)?,
        Err(refusal) => print!(rt; " refused {}", refusal.number())?,
    }
    println!(rt)
}

fn show_far(rt: &impl Print, cloud: &[f32], p: Point3f) -> io::Result<()> {
    match LocalFrame::if_far_from_origin(cloud) {
        Ok(Some(frame)) => write_frame(rt, "far", frame, p)?,
        Ok(None) => print!(rt; " near")?,
        Err(refusal) => print!(rt; " refused {}", refusal.number())?,
    }
    println!(rt)
}

fn show(rt: &impl Print, cloud: &[f32], p: Point3f) -> io::Result<()> {
    show_scale(rt, cloud)?;
    show_centred(rt, cloud, p)?;
    show_far(rt, cloud, p)
}

// No finite point; one point; zeros with a sign; points that are skipped.
fn show_few(rt: &impl Print) -> io::Result<()> {
    let inf = f32::INFINITY;
    let nan = f32::NAN;
    let p = Point3f {
        x: 1.5,
        y: -0.0,
        z: 0.1,
    };
    let one = [0.1, -0.2, 0.3];
    show(rt, &[], p)?;
    show(rt, &[nan, 1.0, 2.0, 3.0, inf, 4.0, 5.0, 6.0, -inf], p)?;
    show(rt, &one, p)?;
    show(rt, &[-0.0; 6], p)?;
    show(
        rt,
        &[
            nan, 1.0, 1.0, 0.1, 0.2, 0.3, 1.0, inf, 1.0, 0.4, 0.5, 0.6, 1.0, 1.0, -inf,
        ],
        p,
    )
}
// Examples 11 and 12, and the same farther out: the norm of the centroid is 100 times the radius, and the next f32 above that.
fn show_bounds(rt: &impl Print) -> io::Result<()> {
    let p = Point3f {
        x: 102.0,
        y: 0.0,
        z: 0.0,
    };
    show(rt, &[99.0, 0.0, 0.0, 101.0, 0.0, 0.0], p)?;
    show(rt, &[100.0, 0.0, 0.0, 102.0, 0.0, 0.0], p)?;
    show(rt, &[0.0, 19800.0, 0.0, 0.0, 20200.0, 0.0], p)?;
    show(rt, &[0.0, 19800.002, 0.0, 0.0, 20200.002, 0.0], p)?;
    show(rt, &[29700.0, 39600.0, 0.0, 30300.0, 40400.0, 0.0], p)?;
    show(rt, &[29700.0, 39600.004, 0.0, 30300.0, 40400.004, 0.0], p)
}

// A spread that comes out below 0; a norm and a radius that are infinite in f32; values that narrowing rounds, to even too.
fn show_rounded(rt: &impl Print) -> io::Result<()> {
    let p = Point3f {
        x: 16777217.0,
        y: -0.3333333,
        z: 123456.79,
    };
    show(rt, &[0.9, 3.33, 15.3, 0.9, 3.33, 15.3, 0.9, 3.33, 15.3], p)?;
    show(rt, &[1.0e38, 1.0e38, 1.0e38, 3.0e38, 3.0e38, 3.0e38], p)?;
    show(rt, &[-3.4e38, 0.0, 0.0, 3.4e38, 0.0, 0.0], p)?;
    show(
        rt,
        &[
            16777214.0, 1.0, 0.0, 16777216.0, 2.0, 0.1, 16777220.0, 4.0, 0.7,
        ],
        p,
    )?;
    show(rt, &[1.0e-45, 0.0, 0.0, 3.0e-45, 0.0, 1.0e-40], p)?;
    show(
        rt,
        &[
            32768.0, -32768.0, 7.0, -1.0, 2.0, -3.0, 32767.0, 0.0, 5.0, 12.0, -9.0, 1.0,
        ],
        p,
    )
}

fn show_long(rt: &impl Print) -> io::Result<()> {
    let p = Point3f {
        x: 1.0,
        y: 2.0,
        z: 3.0,
    };
    let mut cloud = [0.0; 3000];
    trial::fill(&mut cloud, 4);
    show(rt, &cloud, p)
}

fn show_refused(rt: &impl Print) -> io::Result<()> {
    let p = Point3f {
        x: 0.0,
        y: 0.0,
        z: 0.0,
    };
    let four = [1.0, 2.0, 3.0, 4.0];
    show(rt, &four[..1], p)?;
    show(rt, &four[..2], p)?;
    show(rt, &four, p)
}

fn main(rt: HostRuntime) -> io::Result<()> {
    show_few(&rt)?;
    show_bounds(&rt)?;
    show_rounded(&rt)?;
    show_long(&rt)?;
    show_refused(&rt)
}
