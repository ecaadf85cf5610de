// The built lattices at their edges.
#[cfg(test)]
mod tests {
    use lattice::{Compartments, Contributors, Grades, Lattice};
    use std::process::Abort;

    // A number, and in which of the lattices it is a label.
    struct Edge {
        number: u64,
        compartments: bool,
        contributors: bool,
        grades: bool,
    }

    const EDGES: [Edge; 22] = [
        Edge {
            number: 0,
            compartments: true,
            contributors: true,
            grades: true,
        },
        Edge {
            number: 1,
            compartments: false,
            contributors: true,
            grades: true,
        },
        Edge {
            number: 15,
            compartments: false,
            contributors: true,
            grades: true,
        },
        Edge {
            number: 16,
            compartments: false,
            contributors: true,
            grades: false,
        },
        Edge {
            number: 63,
            compartments: false,
            contributors: true,
            grades: false,
        },
        Edge {
            number: 64,
            compartments: true,
            contributors: true,
            grades: false,
        },
        Edge {
            number: 95,
            compartments: true,
            contributors: true,
            grades: false,
        },
        Edge {
            number: 96,
            compartments: false,
            contributors: true,
            grades: false,
        },
        Edge {
            number: 127,
            compartments: false,
            contributors: true,
            grades: false,
        },
        Edge {
            number: 128,
            compartments: true,
            contributors: true,
            grades: false,
        },
        Edge {
            number: 159,
            compartments: true,
            contributors: true,
            grades: false,
        },
        Edge {
            number: 160,
            compartments: false,
            contributors: true,
            grades: false,
        },
        Edge {
            number: 191,
            compartments: false,
            contributors: true,
            grades: false,
        },
        Edge {
            number: 192,
            compartments: true,
            contributors: true,
            grades: false,
        },
        Edge {
            number: 223,
            compartments: true,
            contributors: true,
            grades: false,
        },
        Edge {
            number: 224,
            compartments: false,
            contributors: true,
            grades: false,
        },
        Edge {
            number: 255,
            compartments: false,
            contributors: true,
            grades: false,
        },
        Edge {
            number: 256,
            compartments: true,
            contributors: true,
            grades: false,
        },
        Edge {
            number: 257,
            compartments: false,
            contributors: true,
            grades: false,
        },
        Edge {
            number: 4294967295,
            compartments: false,
            contributors: true,
            grades: false,
        },
        Edge {
            number: 4294967296,
            compartments: false,
            contributors: false,
            grades: false,
        },
        Edge {
            number: 18446744073709551615,
            compartments: false,
            contributors: false,
            grades: false,
        },
    ];

    // What holds at every number, label or not.
    fn ends<L: Lattice>(rt: &impl Abort, lattice: &L, number: u64, is_label: bool) {
        assert_eq!(rt; lattice.is_label(number), is_label);
        assert_eq!(rt; lattice.below(number, number), is_label);
        assert_eq!(rt; lattice.below(lattice.bottom(), number), is_label);
        assert_eq!(rt; lattice.below(number, lattice.top()), is_label);
        let joined = if is_label { number } else { lattice.top() };
        assert_eq!(rt; lattice.join(number, lattice.bottom()), joined);
        assert_eq!(rt; lattice.join(lattice.bottom(), number), joined);
        assert_eq!(rt; lattice.join(number, lattice.top()), lattice.top());
    }

    #[test]
    fn labels_at_their_edges(rt: HostRuntime) {
        for edge in &EDGES {
            ends(&rt, &Compartments, edge.number, edge.compartments);
            ends(&rt, &Contributors, edge.number, edge.contributors);
            ends(&rt, &Grades, edge.number, edge.grades);
        }
    }

    // A family and a vendor, and their tag in each lattice.
    struct Tag {
        family: u32,
        vendor: u32,
        compartments: u64,
        contributors: u64,
        grades: u64,
    }

    const TAGS: [Tag; 8] = [
        Tag {
            family: 0,
            vendor: 0,
            compartments: 0,
            contributors: 0,
            grades: 0,
        },
        Tag {
            family: 1,
            vendor: 0,
            compartments: 64,
            contributors: 1,
            grades: 5,
        },
        Tag {
            family: 1,
            vendor: 31,
            compartments: 95,
            contributors: 2147483648,
            grades: 5,
        },
        Tag {
            family: 2,
            vendor: 5,
            compartments: 133,
            contributors: 32,
            grades: 10,
        },
        Tag {
            family: 3,
            vendor: 31,
            compartments: 223,
            contributors: 2147483648,
            grades: 15,
        },
        Tag {
            family: 3,
            vendor: 32,
            compartments: 0,
            contributors: 0,
            grades: 0,
        },
        Tag {
            family: 4,
            vendor: 0,
            compartments: 0,
            contributors: 0,
            grades: 0,
        },
        Tag {
            family: 4294967295,
            vendor: 4294967295,
            compartments: 0,
            contributors: 0,
            grades: 0,
        },
    ];

    #[test]
    fn tags_of_families_and_vendors(rt: HostRuntime) {
        for tag in &TAGS {
            assert_eq!(rt; Compartments.tag(tag.family, tag.vendor), tag.compartments);
            assert_eq!(rt; Contributors.tag(tag.family, tag.vendor), tag.contributors);
            assert_eq!(rt; Grades.tag(tag.family, tag.vendor), tag.grades);
        }
    }

    #[test]
    fn labels_between_bottom_and_top(rt: HostRuntime) {
        assert!(rt; !Compartments.below(64, 65));
        assert_eq!(rt; Compartments.join(64, 65), 256);
        assert_eq!(rt; Compartments.join(64, 64), 64);
        assert!(rt; Contributors.below(5, 7));
        assert!(rt; !Contributors.below(5, 6));
        assert_eq!(rt; Contributors.join(5, 6), 7);
        assert!(rt; Grades.below(5, 10));
        assert!(rt; !Grades.below(10, 5));
        assert_eq!(rt; Grades.join(5, 10), 10);
    }
}
