//! The whole picture, and the elements that it is made of. No text of a picture has a character that XML reserves. Lengths are in pixels.

use crate::layout::{Layout, TOP};
use crate::timeline::Timeline;
pub(crate) use Shape::{Cross, Diamond, Dot, Line, Rect, Ring};
use std::alloc::{AllocError as NoMemory, Global};
use std::fmt::Write;

/// What a function that writes returns: it fails if memory is refused.
pub type Written = Result<(), NoMemory>;

/// The height of the bars of sessions.
pub(crate) const BAR: u64 = 14;

/// How the classes of elements look, the pattern of waits, and the heads of arrows. The colours are readable on the white ground that
/// each picture has, and differ in lightness, too.
const STYLES: &str = "<style>
text{font:10px sans-serif;fill:#222;pointer-events:none} .head{font-weight:bold;font-size:12px} .note{fill:#a33} .name{fill:#444}
.tick{fill:#666;text-anchor:middle} .held{paint-order:stroke;stroke:#fff;stroke-width:2.5px}
.ground{fill:#fff} .grid{stroke:#e6e6e6;fill:none} .base,.border{stroke:#ccc;fill:none}
.bar{fill:#b8c4d6;stroke:#5b6b85} .wait{fill:url(#hatch);stroke:#a86a00} .victim{fill:#f0b4b4;stroke:#a33}
.call{stroke:#333;fill:none} .column{fill:#000;fill-opacity:0} .column:hover{fill-opacity:.15} .commit{fill:#1c5c2e}
.abort{stroke:#111;stroke-width:2;fill:none} .refused{fill:#fff;stroke:#c00;stroke-width:1.5}
.cycle{fill:none;stroke:#c00;stroke-width:2} .joins{stroke:#c00;stroke-dasharray:2 2;fill:none}
.grants{stroke:#1c7c3a;stroke-width:1.5;fill:none;marker-end:url(#granted)} .dooms{stroke:#c00;stroke-width:1.5;fill:none;marker-end:url(#doomed)}
.IS{fill:#d6ebf7;stroke:#5a9bc0} .IX{fill:#fde3c0;stroke:#c98a33} .S{fill:#93c5e8;stroke:#2f77a8}
.SIX{fill:#d3bfe8;stroke:#7b55a6} .U{fill:#bfe3c6;stroke:#4a9960} .X{fill:#f2a284;stroke:#b4472a}
</style>
<defs>
<pattern id=\"hatch\" width=\"6\" height=\"6\" patternUnits=\"userSpaceOnUse\" patternTransform=\"rotate(45)\"><rect width=\"6\" height=\"6\" fill=\"#fff2d0\"/><rect width=\"2\" height=\"6\" fill=\"#e0a030\"/></pattern>
<marker id=\"granted\" viewBox=\"0 0 8 8\" refX=\"8\" refY=\"4\" markerWidth=\"6\" markerHeight=\"6\" orient=\"auto\"><path d=\"M0 0L8 4L0 8z\" fill=\"#1c7c3a\"/></marker>
<marker id=\"doomed\" viewBox=\"0 0 8 8\" refX=\"8\" refY=\"4\" markerWidth=\"6\" markerHeight=\"6\" orient=\"auto\"><path d=\"M0 0L8 4L0 8z\" fill=\"#c00\"/></marker>
</defs>
";

/// The legend, with its upper left corner at 0 0, but for the sample of a wait, and the end of the file.
const LEGEND: &str = "\
<rect class='bar' x='10' width='24' height='14'/><path class='call' d='M22 0v14'/><text class='name' x='40' y='11'>transaction (T) and call</text>
<text class='name' x='190' y='11'>waits, for whom</text><rect class='victim' x='310' width='24' height='14'/><text class='name' x='340' y='11'>deadlock victim</text>
<circle class='commit' cx='472' cy='7' r='4'/><text class='name' x='490' y='11'>commit</text><path class='abort' d='M622 7m-4 -4l8 8m0 -8l-8 8'/><text class='name' x='640' y='11'>abort, restart</text>
<path class='refused' d='M22 27m-5 0l5 -5l5 5l-5 5z'/><text class='name' x='40' y='31'>refused call</text>
<path class='grants' d='M160 27h24'/><text class='name' x='190' y='31'>grants the request of</text>
<path class='dooms' d='M310 27h24'/><text class='name' x='340' y='31'>makes a victim of</text>
<path class='joins' d='M460 27h24'/><circle class='cycle' cx='472' cy='27' r='6'/><text class='name' x='490' y='31'>closes a cycle of waits</text>
<rect class='IS' x='10' y='40' width='24' height='14'/><text class='held' x='13' y='51'>IS</text><rect class='IX' x='40' y='40' width='24' height='14'/><text class='held' x='43' y='51'>IX</text>
<rect class='S' x='70' y='40' width='24' height='14'/><text class='held' x='73' y='51'>S</text><rect class='SIX' x='100' y='40' width='24' height='14'/><text class='held' x='103' y='51'>SIX</text>
<rect class='U' x='130' y='40' width='24' height='14'/><text class='held' x='133' y='51'>U</text><rect class='X' x='160' y='40' width='24' height='14'/><text class='held' x='163' y='51'>X</text>
<text class='name' x='190' y='51'>holders of a contended resource: session and mode</text>
</g>
</svg>
";

/// A shape: a rectangle, by its upper left corner, where it ends on the right, and its height; a line, by its ends; a sign, by its middle.
#[derive(Clone, Copy)]
pub(crate) enum Shape {
    Rect(u64, u64, u64, u64),
    Line(u64, u64, u64, u64),
    Dot(u64, u64),
    Ring(u64, u64),
    Cross(u64, u64),
    Diamond(u64, u64),
}

/// Writes the shape as an element of the class, with a title that is shown on hovering.
pub(crate) fn put(out: &mut String, class: &str, shape: Shape, title: &str) -> Written {
    write!(out, "<path class=\"{class}\" d=\"M")?;
    match shape {
        Rect(x, y, right, height) => write!(out, "{x} {y}H{right}v{height}H{x}z")?,
        Line(x, y, to_x, to_y) => write!(out, "{x} {y}L{to_x} {to_y}")?,
        Dot(x, y) => write!(out, "{x} {y}m-4 0a4 4 0 1 1 8 0a4 4 0 1 1 -8 0z")?,
        Ring(x, y) => write!(out, "{x} {y}m-6 0a6 6 0 1 1 12 0a6 6 0 1 1 -12 0z")?,
        Cross(x, y) => write!(out, "{x} {y}m-4 -4l8 8m0 -8l-8 8")?,
        Diamond(x, y) => write!(out, "{x} {y}m-5 0l5 -5l5 5l-5 5z")?,
    }
    writeln!(out, "\"><title>{title}</title></path>")
}

/// Writes the text, which begins at `x` on the line at `y`.
pub(crate) fn put_text(out: &mut String, class: &str, x: u64, y: u64, text: &str) -> Written {
    write!(out, "<text class=\"{class}\" x=\"{x}\" y=\"{y}\">")?;
    writeln!(out, "{text}</text>")
}

/// About the width that the text needs.
pub(crate) fn width_of(text: &str) -> u64 {
    (text.len() as u64).saturating_mul(6)
}

/// Writes the beginning of the file: size, styles and ground.
fn put_start(out: &mut String, layout: &Layout<'_>) -> Written {
    let width = layout.column(layout.upto()).saturating_add(20).max(770); // in which the legend has room
    let height = layout.bottom.saturating_add(100);
    write!(out, "<svg xmlns=\"http://www.w3.org/2000/svg\" ")?;
    write!(out, "width=\"{width}\" height=\"{height}\" ")?;
    writeln!(out, "viewBox=\"0 0 {width} {height}\">")?;
    out.push_str(STYLES)?;
    put(out, "ground", Rect(0, 0, width, height), "")
}

/// Writes which places of a history of so many entries the picture draws, and what of the places up to and without `asked` and of the
/// lanes it leaves out.
fn put_heading(out: &mut String, layout: &Layout<'_>, asked: u64, entries: u64) -> Written {
    let (from, next) = (layout.timeline.from, layout.upto());
    let (last, last_asked) = (next.saturating_sub(1), asked.saturating_sub(1));
    let mut heading = String::new(layout.alloc);
    if layout.count == 0 {
        heading.push_str("no calls")?;
    } else {
        write!(&mut heading, "places {from} to {last} of a legal ")?;
        write!(&mut heading, "history of {entries} calls")?;
    }
    put_text(out, "head", 10, 18, &heading)?;
    let mut line = String::new(layout.alloc);
    let mut sign = "left out:";
    if next < asked {
        write!(&mut line, "{sign} places {next} to {last_asked}, ")?;
        write!(&mut line, "drawn with --from {next}")?;
        sign = ";";
    }
    if layout.more_sessions > 0 {
        write!(&mut line, "{sign} {} sessions", layout.more_sessions)?;
        sign = ";";
    }
    let resources = layout.more_resources;
    if resources > 0 {
        write!(&mut line, "{sign} {resources} contended resources")?;
    }
    put_text(out, "note", 10, 34, &line)
}

/// Writes the numbers of places above and below the lanes, and lines between them.
fn put_axis(out: &mut String, layout: &Layout<'_>) -> Written {
    let interval = match layout.step {
        20.. if layout.upto() < 1000 => 1,
        16.. => 5,
        _ => 10,
    };
    for column in 0..layout.count {
        let place = layout.timeline.from.saturating_add(column);
        if place % interval == 0 {
            let x = layout.middle(place);
            let number = format!(in layout.alloc; "{place}")?;
            put_text(out, "tick", x, TOP - 4, &number)?;
            put(out, "grid", Line(x, TOP, x, layout.bottom), "")?;
            put_text(out, "tick", x, layout.bottom.saturating_add(12), &number)?;
        }
    }
    Ok(())
}

/// The picture of the calls that were noted, from the place on that the timeline is drawn from, as SVG: at most
/// [`MOST_PLACES`](crate::MOST_PLACES) places, 60 sessions and 40 resources. `asked` is the place behind the last that was asked for,
/// `entries` the number of calls of the history; a line of the picture tells what is left out. Fails only with `NoMemory`.
pub fn timeline_svg(
    alloc: Global,
    timeline: &Timeline,
    asked: u64,
    entries: u64,
) -> Result<String, NoMemory> {
    let layout = Layout::new(alloc, timeline)?;
    let mut out = String::new(alloc);
    put_start(&mut out, &layout)?;
    put_heading(&mut out, &layout, asked, entries)?;
    put_axis(&mut out, &layout)?;
    layout.put_lanes(&mut out)?;
    let legend = layout.bottom.saturating_add(30);
    put(&mut out, "wait", Rect(160, legend, 184, BAR), "")?; // hatched in step with the lanes
    writeln!(&mut out, "<g transform=\"translate(0 {legend})\">")?;
    out.push_str(LEGEND)?;
    Ok(out)
}
