// A walk along the edges of a graph.
ghost use Rattle.std.specs.Prelude.{◌≡◌, ◌<◌, ◌≤◌, ◌+◌, ◌-◌, ◌↔◌, ◌⊎◌, [], ◌∷◌, ℕ, nat_lt, true, false, length, IfOk, OnOk, Contains, slice_index_or};
ghost use Rattle.hy_cycles.specs.Graph.{graph_of, next, Reaches};
ghost use Rattle.hy_cycles.specs.Standing.{shown, at, place_of, entered, measure, Stands, CutTo, Closes, Has, HasNodes, Led, StayMet};
ghost use Rattle.hy_cycles.specs.declared.walk.Place.TheVariants.{New};

use hy_base::NoMemory;
use std::alloc::Global;

/// Where a node stands in a walk.
#[derive(Clone, Copy)]
enum Place {
    /// It was not met yet.
    New,
    /// It is on the path, at this place.
    On(usize),
    /// All that can be reached from it was met.
    Done,
}

/// A walk: the path of nodes that were met and are not done, parted into groups, and what is known of all nodes. From each node of
/// the path there is a way to those after it, and from each node of a group to all of the group.
#[derive(Drop)]
struct Walk {
    /// Where each node stands.
    places: Vec<Place>,
    /// Of each node, how many of its edges were taken.
    taken: Vec<usize>,
    path: Vec<usize>,
    /// The places of the path where groups begin.
    starts: Vec<usize>,
    /// The places of the path, edges of whose nodes are left.
    trail: Vec<usize>,
    /// Of each node that is done, whether it lies on a cycle.
    flags: Vec<bool>,
}

/// Leaves out the numbers above a bound, at the end of a list that rises.
fn cut_to(list: &mut Vec<usize>, bound: usize)
    ensures { CutTo bound list.old.items list.new.items }
{
    let mut count = list.len();
    while count > 0 && list[count - 1] > bound {
        count -= 1;
    }
    list.truncate(count);
}

impl Walk {
    /// No node was met.
    fn new(alloc: Global, edges: &[Vec<usize>]) -> Result<Walk, NoMemory>
        ensures stands { IfOk result (λ walk. Stands (graph_of edges.now) (shown walk)) }
        ensures empty { IfOk result (λ walk. walk.path.items ≡ []) }
    {
        let places = vec![in alloc; Place::New; edges.len()]?;
        let taken = vec![in alloc; 0; edges.len()]?;
        let flags = vec![in alloc; false; edges.len()]?;
        Ok(Walk {
            places,
            taken,
            path: Vec::new(alloc),
            starts: Vec::new(alloc),
            trail: Vec::new(alloc),
            flags,
        })
    }

    /// Puts a node on the path, as a group of its own.
    fn enter(&mut self, node: usize) -> Result<(), NoMemory>
        requires { node < length self.old.places.items }
        ensures { OnOk result (shown self.new ≡ entered (shown self.old) node) }
    {
        let place = self.path.len();
        self.places[node] = Place::On(place);
        self.path.push(node)?;
        self.starts.push(place)?;
        self.trail.push(place)?;
        Ok(())
    }

    /// Goes along an edge of the node at the last place of the trail.
    fn follow(&mut self, edges: &[Vec<usize>], last: usize, to: usize) -> Result<(), NoMemory>
        requires stands { Stands (graph_of edges.now) (shown self.old) }
        requires last { (0 < length self.old.trail.items) × (last ≡ at self.old.trail.items (length self.old.trail.items - 1)) }
        requires edge { Contains (next (graph_of edges.now) (at self.old.path.items last)) to }
        requires known { to < length edges.now }
        ensures stands { OnOk result (Stands (graph_of edges.now) (shown self.new)) }
        ensures led { OnOk result (Led self.new.places.items self.new.starts.items last to) }
        ensures last { OnOk result (Has self.new.trail.items last × (last < length self.new.path.items)
            × (at self.new.path.items last ≡ at self.old.path.items last)) }
        ensures taken { OnOk result (self.new.taken.items ≡ self.old.taken.items) }
        ensures longer { OnOk result (length self.new.trail.items ≤ length self.old.trail.items + 1) }
        ensures met { OnOk result (StayMet (shown self.old) (shown self.new)) }
    {
        match self.places[to] {
            Place::New => {
                self.enter(to)?;
                Ok(())
            }
            Place::On(place) => {
                cut_to(&mut self.starts, place);
                Ok(())
            }
            Place::Done => Ok(()),
        }
    }

    /// Takes the next edge of the node at the last place of the trail.
    fn take_edge(&mut self, edges: &[Vec<usize>], last: usize, node: usize) -> Result<(), NoMemory>
        requires stands { Stands (graph_of edges.now) (shown self.old) }
        requires last { (0 < length self.old.trail.items) × (last ≡ at self.old.trail.items (length self.old.trail.items - 1)) }
        requires node { node ≡ at self.old.path.items last }
        requires nodes { HasNodes (graph_of edges.now) }
        requires more { at self.old.taken.items node < length (next (graph_of edges.now) node) }
        ensures stands { OnOk result (Stands (graph_of edges.now) (shown self.new)) }
        ensures less { OnOk result (measure (graph_of edges.now) (shown self.new) < measure (graph_of edges.now) (shown self.old)) }
        ensures met { OnOk result (StayMet (shown self.old) (shown self.new)) }
    {
        let count = self.taken[node];
        self.follow(edges, last, edges[node][count])?;
        self.taken[node] = count + 1;
        Ok(())
    }

    /// Ends the last group of the path, which begins at the last place of the trail, and tells each of its nodes this.
    fn close(&mut self, edges: &[Vec<usize>], start: usize, flag: bool)
        requires { Stands (graph_of edges.now) (shown self.old) }
        ensures { Closes start flag (shown self.old) (shown self.new) }
    {
        for place in start..self.path.len() {
            let node = self.path[place];
            self.places[node] = Place::Done;
            self.flags[node] = flag;
        }
        self.path.truncate(start);
        self.starts.pop();
        self.trail.pop();
    }

    /// Whether the nodes of the group that begins at the last place of the trail lie on cycles: it has several, or an edge of its node
    /// leads to itself.
    fn turns(&self, edges: &[Vec<usize>], start: usize, node: usize) -> bool
        requires inside { start < length self.now.path.items }
        requires known { node < length edges.now }
        ensures { (result ≡ true) ↔ ((start + 1 < length self.now.path.items) ⊎ Contains (next (graph_of edges.now) node) node) }
    {
        self.path.len() - start > 1 || edges[node].contains(&node)
    }

    /// Leaves the last place of the trail, all edges of whose node were taken.
    fn leave(&mut self, edges: &[Vec<usize>], last: usize, node: usize)
        requires stands { Stands (graph_of edges.now) (shown self.old) }
        requires last { (0 < length self.old.trail.items) × (last ≡ at self.old.trail.items (length self.old.trail.items - 1)) }
        requires node { node ≡ at self.old.path.items last }
        requires all { length (next (graph_of edges.now) node) ≤ at self.old.taken.items node }
        ensures stands { Stands (graph_of edges.now) (shown self.new) }
        ensures less { measure (graph_of edges.now) (shown self.new) < measure (graph_of edges.now) (shown self.old) }
        ensures met { StayMet (shown self.old) (shown self.new) }
    {
        if self.starts[self.starts.len() - 1] != last {
            self.trail.pop();
            return;
        }
        let flag = self.turns(edges, last, node);
        self.close(edges, last, flag);
    }

    /// Whether an edge of a node is left.
    fn has_edge(&self, edges: &[Vec<usize>], node: usize) -> bool
        requires taken { length self.now.taken.items ≡ length edges.now }
        requires known { node < length edges.now }
        ensures { result ≡ nat_lt (at self.now.taken.items node) (length (next (graph_of edges.now) node)) }
    {
        self.taken[node] < edges[node].len()
    }

    /// Takes an edge of the node at the last place of the trail, or leaves it.
    fn step(&mut self, edges: &[Vec<usize>]) -> Result<(), NoMemory>
        requires stands { Stands (graph_of edges.now) (shown self.old) }
        requires nodes { HasNodes (graph_of edges.now) }
        requires some { 0 < length self.old.trail.items }
        ensures stands { OnOk result (Stands (graph_of edges.now) (shown self.new)) }
        ensures less { OnOk result (measure (graph_of edges.now) (shown self.new) < measure (graph_of edges.now) (shown self.old)) }
        ensures met { OnOk result (StayMet (shown self.old) (shown self.new)) }
    {
        let last = self.trail[self.trail.len() - 1];
        let node = self.path[last];
        if self.has_edge(edges, node) {
            return self.take_edge(edges, last, node);
        }
        self.leave(edges, last, node);
        Ok(())
    }

    /// Meets all that can be reached from a node, where it was not met.
    fn visit(&mut self, edges: &[Vec<usize>], root: usize) -> Result<(), NoMemory>
        requires stands { Stands (graph_of edges.now) (shown self.old) }
        requires empty { length self.old.path.items ≡ 0 }
        requires nodes { HasNodes (graph_of edges.now) }
        requires known { root < length edges.now }
        ensures stands { OnOk result (Stands (graph_of edges.now) (shown self.new)) }
        ensures empty { OnOk result (length self.new.path.items ≡ 0) }
        ensures met { OnOk result (StayMet (shown self.old) (shown self.new)) }
        ensures root { OnOk result (place_of self.new.places.items root ≡ New → ⊥) }
    {
        match self.places[root] {
            Place::New => {
                self.enter(root)?;
                self.run(edges)
            }
            Place::On(_) => Ok(()),
            Place::Done => Ok(()),
        }
    }

    /// Walks on until the trail ends.
    fn run(&mut self, edges: &[Vec<usize>]) -> Result<(), NoMemory>
        requires stands { Stands (graph_of edges.now) (shown self.old) }
        requires nodes { HasNodes (graph_of edges.now) }
        ensures stands { OnOk result (Stands (graph_of edges.now) (shown self.new)) }
        ensures empty { OnOk result (length self.new.path.items ≡ 0) }
        ensures met { OnOk result (StayMet (shown self.old) (shown self.new)) }
    {
        while self.trail.len() > 0 {
            self.step(edges)?;
        }
        Ok(())
    }

    /// What was told of the nodes.
    fn into_flags(self) -> Vec<bool>
        ensures { result ≡ self.flags }
    {
        self.flags
    }
}

/// Whether each node of a graph lies on a cycle, where `edges` has the nodes that the edges of each node lead to. It takes time in
/// proportion to the nodes and edges together.
pub fn on_cycles(alloc: Global, edges: &[Vec<usize>]) -> Result<Vec<bool>, NoMemory>
    requires { (from to : ℕ) → Contains (next (graph_of edges.now) from) to → to < length edges.now }
    ensures long { IfOk result (λ flags. length flags.items ≡ length edges.now) }
    ensures tells { IfOk result (λ flags. (node : ℕ) → node < length edges.now
        → (slice_index_or flags.items node false ≡ true) ↔ Reaches (graph_of edges.now) node node) }
{
    let mut walk = Walk::new(alloc, edges)?;
    for root in 0..edges.len() {
        walk.visit(edges, root)?;
    }
    Ok(walk.into_flags())
}
