//! The circle of labels with the intervals of a node, coloured by port: as SVG, and for Graphviz.

mod around;
mod key;
mod names;
mod ports;
mod ring;
mod svg;

pub use ring::circle_dot;
pub use svg::circle_svg;
